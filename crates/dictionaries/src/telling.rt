// Of which records a dictionary tells: of what its own owner owns, and where that is OWNER of all.
ghost use Rattle.std.specs.Prelude.{◌≡◌, nat_eq};
ghost use Rattle.scql_model.specs.Dictionaries as model;

use record_store::Tag;
use record_table::Wanted;
use scql_base::{Object, User};

/// The stamp of OWNER.
const OWNER: u32 = 1;

/// The records of which a dictionary of this owner tells.
#[derive(Clone, Copy)]
pub(crate) struct TellsOf(pub u32);

impl TellsOf {
    /// Whether it tells of all records.
    pub(crate) fn all(self) -> bool
        ensures { result ≡ nat_eq self.0 1 }
    {
        self.0 == OWNER
    }

    /// Whether it tells of what this owner owns.
    pub(crate) fn of(self, owner: u32) -> bool
        ensures { result ≡ model.tells_of self.0 owner }
    {
        self.0 == OWNER || owner == self.0
    }
}

impl Wanted<User> for TellsOf {
    ghost wants = { λ wanted user. model.tells_of wanted.0 user.owner };

    fn is(&self, entry: &User) -> bool {
        self.of(entry.owner)
    }

    fn tag(&self) -> Option<Tag> {
        None
    }
}

impl Wanted<Object> for TellsOf {
    ghost wants = { λ wanted object. model.tells_of wanted.0 object.owner };

    fn is(&self, entry: &Object) -> bool {
        self.of(entry.owner)
    }

    fn tag(&self) -> Option<Tag> {
        None
    }
}

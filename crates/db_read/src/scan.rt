// What a cursor goes over, kept for its next moves.
ghost use Rattle.std.specs.Prelude.{◌≡◌, None};
ghost use Rattle.scql_model.specs.Defining as defining;

use record_store::RecordOctets;
use scql_base::{Object, ObjectKind, Row, RowRecord};
use search_cond::Bound;
use std::marker::Model;
use views::{Places, Resolved};

/// What a cursor chooses, once a move of it has found that: its object, the table under it or that it is a dictionary, which columns are
/// shown, and the conditions that a row has to meet. A next move with it neither looks for the object, nor asks for the right to select from
/// it, nor binds a condition, and neither does a change of the row. Who keeps it lets it go where the catalog or who acts may have changed.
/// The row that a move or a change reads has its place here, too. A change that finds nothing here finds what it needs in the same places; since who
/// acts may have no right to select, that isn't kept.
#[derive(Drop)]
pub struct Scan {
    /// Whether the choice is what was found. Where it isn't, the choice is a place for what is found.
    pub is_found: bool,
    pub choice: Choice,
    pub room: RowRoom,
}

/// What a cursor chooses.
#[derive(Drop)]
pub struct Choice {
    /// The cursor's object, from which who acts may select.
    pub object: Option<Object>,
    /// The object down to its table: of it the table, all its columns, and the conditions of the views between. Of a dictionary its columns.
    pub resolved: Resolved,
    /// The places of the cursor's columns among these.
    pub places: Places,
    /// The cursor's conditions.
    pub conditions: Bound,
}

/// Places for a row that is read: for the octets of its record, and for itself; and where the last one stood in the index.
#[derive(Drop)]
pub struct RowRoom {
    pub octets: RecordOctets,
    pub row: RowRecord,
    pub near: usize,
}

impl Model for Scan {
    ghost use Rattle.std.specs.Prelude.{Option};
    ghost use Rattle.db_read.specs.Scan.{Found, found_in};

    ghost Value = { Option Found };

    ghost view = { λ scan. found_in scan.is_found scan.choice };
}

impl Scan {
    ghost use Rattle.std.specs.Prelude.{◌≡◌, is_some};

    /// Nothing was found yet.
    pub fn new() -> Scan
        ensures { result ≡ None }
    {
        Scan {
            is_found: false,
            choice: Choice::new(),
            room: RowRoom::new(),
        }
    }

    /// Lets go what was found.
    pub fn forget(&mut self)
        ensures { self.new ≡ None }
    {
        self.is_found = false;
    }

    /// Whether something was found.
    pub(crate) fn has_found(&self) -> bool
        ensures { result ≡ is_some self.now }
    {
        self.is_found && self.choice.object.is_some()
    }
}

/// Whether rows of a table are under an object of this kind, and not those of a dictionary.
pub fn is_table_or_view(kind: &ObjectKind) -> bool
    ensures { result ≡ defining.is_table_or_view kind.now }
{
    !matches!(kind, ObjectKind::Dictionary { .. })
}

impl Choice {
    fn new() -> Choice {
        Choice {
            object: None,
            resolved: Resolved::default(),
            places: Places::new(),
            conditions: Bound::default(),
        }
    }
}

impl RowRoom {
    fn new() -> RowRoom {
        RowRoom {
            octets: RecordOctets::new(),
            row: RowRecord {
                stamp: 0,
                table: 0,
                row: Row::new(),
            },
            near: 0,
        }
    }
}

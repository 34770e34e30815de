// A database that is known to be valid.
ghost use Rattle.std.specs.Prelude.{◌≡◌};
ghost use Rattle.scql_model.specs.Database.{IsValid};

use crate::PlainDatabase;
use std::marker::Model;

/// A valid database, to be read. Its records' stamps rise, so that a search by a stamp halves what is left at each turn.
#[derive(Drop)]
pub struct ValidDatabase<'a> {
    database: &'a PlainDatabase,
}

impl<'a> Model for ValidDatabase<'a> {
    ghost use Rattle.scql_model.specs.Database.{Database, IsValid};

    ghost Value = { Database };

    ghost view = { λ v. v.database.now };

    ghost invariant = { λ v. IsValid v.database.now };
}

impl PlainDatabase {
    /// Itself, where it is valid.
    pub fn as_valid(&self) -> ValidDatabase<'_>
        requires { IsValid self.now }
        ensures { result ≡ self.now }
    {
        ValidDatabase { database: self }
    }
}

impl<'a> ValidDatabase<'a> {
    /// The database.
    pub fn database(&self) -> &'a PlainDatabase
        ensures same { result.now ≡ self.now }
        ensures valid { IsValid self.now }
    {
        self.database
    }
}

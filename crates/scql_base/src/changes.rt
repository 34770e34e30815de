// Lists of changes to the columns of a row.
ghost use Rattle.std.specs.Prelude.{◌≡◌, []};
ghost use Rattle.scql_base.specs.Bounded.{Counted, Pushed};
ghost use Rattle.scql_base.specs.Lists.{AreChanges, GivesChanges};
ghost use Rattle.scql_base.specs.declared.changes.TheConstants.Changes.{MOST};

use crate::blank::Blank;
use crate::{ListFull, Name, Octets};
use arrayvec::ArrayVec;
use std::marker::Model;

/// One change: a column, and the value that it is to have.
#[derive(Drop)]
pub struct Change {
    pub pair: (Name, Octets<200>),
}

/// A list of at most 15 changes.
#[derive(Drop)]
pub struct Changes {
    held: ArrayVec<Change, { Changes::MOST }, Blank>,
}

impl Model for Changes {
    ghost use Rattle.std.specs.Prelude.{List, ℕ, map};
    ghost use Rattle.scql_base.specs.Lists.{AreChanges};

    ghost Value = { List (List ℕ × List ℕ) };

    ghost view = { λ l. map (λ change. change.pair) l.held.items };

    ghost invariant = { λ l. AreChanges (map (λ change. change.pair) l.held.items) };
}

impl Changes {
    /// How many changes a list may have: one of each column.
    pub const MOST: usize = 15;

    /// No changes.
    pub fn new() -> Changes
        ensures { result ≡ [] }
    {
        Changes {
            held: ArrayVec::new_in(Blank),
        }
    }

    /// How many changes there are.
    pub fn len(&self) -> usize
        ensures { Counted AreChanges self.now result }
    {
        self.held.len()
    }

    /// The changes in their order.
    pub fn as_slice(&self) -> &[Change]
        ensures { GivesChanges self.now result.now }
    {
        self.held.as_slice()
    }

    /// Adds a change at the end. A full list stays as it is.
    pub fn push(&mut self, change: (Name, Octets<200>)) -> Result<(), ListFull>
        ensures { Pushed MOST self.old change self.new result }
    {
        if self.held.is_full() {
            return Err(ListFull);
        }
        change.0.told();
        change.1.told();
        self.held.push(Change { pair: change });
        Ok(())
    }
}

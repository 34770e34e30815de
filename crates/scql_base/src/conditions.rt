// Lists of conditions, all of which a row has to meet.
ghost use Rattle.std.specs.Prelude.{◌≡◌, []};
ghost use Rattle.scql_base.specs.Bounded.{Counted, Pushed};
ghost use Rattle.scql_base.specs.Lists.{AreConditions};
ghost use Rattle.scql_base.specs.declared.conditions.TheConstants.Conditions.{MOST};

use crate::blank::Blank;
use crate::{Condition, Copied, ListFull};
use arrayvec::ArrayVec;
use std::marker::Model;

/// A list of at most 8 conditions.
#[derive(Drop)]
pub struct Conditions {
    held: ArrayVec<Condition, { Conditions::MOST }, Blank>,
}

impl Model for Conditions {
    ghost use Rattle.std.specs.Prelude.{List};
    ghost use Rattle.scql_base.specs.declared.condition.Condition.{Condition};
    ghost use Rattle.scql_base.specs.Lists.{AreConditions};

    ghost Value = { List Condition };

    ghost view = { λ l. l.held.items };

    ghost invariant = { λ l. AreConditions l.held.items };
}

impl Conditions {
    /// How many conditions a list may have.
    pub const MOST: usize = 8;

    /// No conditions.
    pub fn new() -> Conditions
        ensures { result ≡ [] }
    {
        Conditions {
            held: ArrayVec::new_in(Blank),
        }
    }

    /// How many conditions there are.
    pub fn len(&self) -> usize
        ensures { Counted AreConditions self.now result }
    {
        self.held.len()
    }

    /// The conditions in their order.
    pub fn as_slice(&self) -> &[Condition]
        ensures conditions { result.now ≡ self.now }
        ensures list { AreConditions self.now }
    {
        self.held.as_slice()
    }

    /// Adds a condition at the end. A full list stays as it is.
    pub fn push(&mut self, condition: Condition) -> Result<(), ListFull>
        ensures { Pushed MOST self.old condition self.new result }
    {
        if self.held.is_full() {
            return Err(ListFull);
        }
        condition.column.told();
        condition.value.told();
        self.held.push(condition);
        Ok(())
    }
}

impl Copied for Conditions {
    fn copy(&self) -> Conditions {
        let mut held = ArrayVec::new_in(Blank);
        for condition in self.held.as_slice() {
            held.push(condition.copy());
        }
        Conditions { held }
    }
}

// Lists of names, as the columns of a table.
ghost use Rattle.std.specs.Prelude.{◌≡◌, []};
ghost use Rattle.std.specs.List.{list_any};
ghost use Rattle.std.specs.Str.{bytes_eq};
ghost use Rattle.scql_base.specs.Different.{TellsDifferent};
ghost use Rattle.scql_base.specs.Bounded.{Counted, Pushed};
ghost use Rattle.scql_base.specs.Lists.{AreNames};
ghost use Rattle.scql_base.specs.declared.name_list.TheConstants.NameList.{MOST};

use crate::blank::Blank;
use crate::{Copied, ListFull, Name};
use arrayvec::ArrayVec;
use std::marker::Model;

/// A list of at most 15 names.
#[derive(Drop)]
pub struct NameList {
    held: ArrayVec<Name, { NameList::MOST }, Blank>,
}

impl Model for NameList {
    ghost use Rattle.std.specs.Prelude.{List, ℕ};
    ghost use Rattle.scql_base.specs.Lists.{AreNames};

    ghost Value = { List (List ℕ) };

    ghost view = { λ l. l.held.items };

    ghost invariant = { λ l. AreNames l.held.items };
}

impl NameList {
    /// How many names a list may have.
    pub const MOST: usize = 15;

    /// No names.
    pub fn new() -> NameList
        ensures { result ≡ [] }
    {
        NameList {
            held: ArrayVec::new_in(Blank),
        }
    }

    /// How many names there are.
    pub fn len(&self) -> usize
        ensures { Counted AreNames self.now result }
    {
        self.held.len()
    }

    /// The names in their order.
    pub fn as_slice(&self) -> &[Name]
        ensures names { result.now ≡ self.now }
        ensures list { AreNames self.now }
    {
        self.held.as_slice()
    }

    /// Whether a name is one of them.
    pub fn contains(&self, name: &Name) -> bool
        ensures { result ≡ list_any (bytes_eq name.now) self.now }
    {
        is_among(name, self.as_slice())
    }

    /// Whether no name is in the list twice.
    pub fn are_different(&self) -> bool
        ensures { TellsDifferent self.now result }
    {
        let mut rest = self.as_slice();
        while let [name, others @ ..] = rest {
            if is_among(name, others) {
                return false;
            }
            rest = others;
        }
        true
    }

    /// Adds a name at the end. A full list stays as it is.
    pub fn push(&mut self, name: Name) -> Result<(), ListFull>
        ensures { Pushed MOST self.old name self.new result }
    {
        if self.held.is_full() {
            return Err(ListFull);
        }
        name.told();
        self.held.push(name);
        Ok(())
    }
}

impl Copied for NameList {
    fn copy(&self) -> NameList {
        let mut held = ArrayVec::new_in(Blank);
        for name in self.held.as_slice() {
            held.push(name.copy());
        }
        NameList { held }
    }
}

fn is_among(name: &Name, names: &[Name]) -> bool
    ensures { result ≡ list_any (bytes_eq name.now) names.now }
{
    names.iter().any(|other| name.octets() == other.octets())
}

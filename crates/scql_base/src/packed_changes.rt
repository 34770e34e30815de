// The changes of a command, in one run of octets.
ghost use Rattle.std.specs.Prelude.{◌≡◌, ◌<◌, ◌≤◌, ◌+◌, ◌↔◌, [], ◌∷◌, ◌++◌, IsOk, IsSome, IfSome, IfNone, OnOk, OnErr, length};
ghost use Rattle.scql_base.specs.Changes.{ArePacked, change_octets};
ghost use Rattle.scql_base.specs.Lists.{AreChanges};
ghost use Rattle.scql_base.specs.Strings.{spelled};
ghost use Rattle.scql_base.specs.declared.operation.TheConstants.Command.{LONGEST_IN_PARTS};

use crate::{Changes, Command, ListFull, Name, Params, Row};
use arrayvec::ArrayVec;
use std::marker::Model;

/// At most 15 changes, as they stand in the data field of UPDATE, which has at most 1,275 octets:
/// of each change its column and its value, each as its length in one octet and its octets.
#[derive(Drop)]
pub struct PackedChanges {
    octets: ArrayVec<u8, { Command::LONGEST_IN_PARTS }>,
    count: usize,
}

impl Model for PackedChanges {
    ghost use Rattle.std.specs.Prelude.{List, ℕ, ◌≡◌, length};
    ghost use Rattle.scql_base.specs.Changes.{ArePacked, change_octets, pairs_of};
    ghost use Rattle.scql_base.specs.Strings.{strings_of};

    ghost Value = { List (List ℕ × List ℕ) };

    ghost view = { λ p. pairs_of (strings_of p.octets.items) };

    ghost invariant = { λ p. ArePacked (pairs_of (strings_of p.octets.items)) × (p.octets.items ≡ change_octets (pairs_of (strings_of p.octets.items))) × (p.count ≡ length (pairs_of (strings_of p.octets.items))) };
}

impl PackedChanges {
    /// No changes.
    pub fn new() -> PackedChanges
        ensures { result ≡ [] }
    {
        PackedChanges {
            octets: ArrayVec::new(),
            count: 0,
        }
    }

    /// The changes of a list, where one command can have them.
    pub fn of(changes: &Changes) -> Option<PackedChanges>
        ensures value { IfSome result (λ packed. packed ≡ changes.now) }
        ensures found { IsSome result ↔ (length (change_octets changes.now) ≤ LONGEST_IN_PARTS) }
    {
        let mut packed = PackedChanges::new();
        for change in changes.as_slice() {
            packed.push(&change.pair.0, change.pair.1.as_slice()).ok()?;
        }
        Some(packed)
    }

    /// Adds a change at the end, where one command can have it and the others. Else all stay as they are.
    pub fn push(&mut self, column: &Name, value: &[u8]) -> Result<(), ListFull>
        ensures variant { IsOk result ↔ ArePacked (self.old ++ (column.now, value.now) ∷ []) }
        ensures ok { OnOk result (self.new ≡ self.old ++ (column.now, value.now) ∷ []) }
        ensures full { OnErr result (self.new ≡ self.old) }
    {
        let name = column.octets();
        let size = self.octets.len() + name.len() + value.len() + 2;
        if self.count == Changes::MOST
            || value.len() > Row::LONGEST_VALUE
            || size > Command::LONGEST_IN_PARTS
        {
            return Err(ListFull);
        }
        spell(&mut self.octets, name);
        spell(&mut self.octets, value);
        self.count += 1;
        Ok(())
    }

    /// The octets of the changes in a data field.
    pub fn octets(&self) -> &[u8]
        ensures octets { result.now ≡ change_octets self.now }
        ensures packed { ArePacked self.now }
    {
        self.octets.as_slice()
    }

    /// The changes, to go through.
    pub fn run(&self) -> ChangeRun<'_>
        ensures { result ≡ self.now }
    {
        ChangeRun {
            octets: self.octets.as_slice(),
        }
    }
}

/// Changes that are left to go through.
#[derive(Drop)]
pub struct ChangeRun<'a> {
    octets: &'a [u8],
}

impl<'a> Model for ChangeRun<'a> {
    ghost use Rattle.std.specs.Prelude.{List, ℕ, ◌≡◌};
    ghost use Rattle.scql_base.specs.Changes.{change_octets, pairs_of};
    ghost use Rattle.scql_base.specs.Lists.{AreChanges};
    ghost use Rattle.scql_base.specs.Strings.{strings_of};

    ghost Value = { List (List ℕ × List ℕ) };

    ghost view = { λ r. pairs_of (strings_of r.octets.now) };

    ghost invariant = { λ r. AreChanges (pairs_of (strings_of r.octets.now)) × (r.octets.now ≡ change_octets (pairs_of (strings_of r.octets.now))) };
}

impl<'a> ChangeRun<'a> {
    /// The first change's column and value, and the changes behind it.
    pub fn first(&self) -> Option<((&'a [u8], &'a [u8]), ChangeRun<'a>)>
        ensures some { IfSome result (λ x. self.now ≡ (x.0.0.now, x.0.1.now) ∷ x.1) }
        ensures none { IfNone result (self.now ≡ []) }
        ensures list { AreChanges self.now }
    {
        let (column, rest) = Params::first_in(self.octets)?;
        let (value, octets) = Params::first_in(rest)?;
        Some(((column, value), ChangeRun { octets }))
    }
}

// Puts a string behind others: its length in one octet, and its octets.
fn spell(octets: &mut ArrayVec<u8, { Command::LONGEST_IN_PARTS }>, string: &[u8])
    requires short { length string.now ≤ 200 }
    requires room { length octets.old.items + length string.now < LONGEST_IN_PARTS }
    ensures { octets.new.items ≡ octets.old.items ++ spelled string.now }
{
    octets.push(string.len() as u8);
    let fits = octets.try_extend_from_slice(string).is_ok();
    prove!(fits);
}

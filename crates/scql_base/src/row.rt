// Rows of values.
ghost use Rattle.std.specs.Prelude.{◌≡◌, ◌<◌, ◌≤◌, ◌+◌, [], ◌∷◌, ◌++◌, Ok, Err, OnErr, OnOk, IfErr, length, option_and_then, option_map};
ghost use Rattle.std.specs.List.{flat_map};
ghost use Rattle.scql_base.specs.Bounded.{HasAt};
ghost use Rattle.scql_base.specs.Strings.{params_of, spelled};
ghost use Rattle.scql_base.specs.Row.{IsRow, narrow_count, row_from, row_size, with_value};
ghost use Rattle.scql_base.specs.declared.row.TheConstants.Row.{LARGEST, LONGEST_VALUE};

use crate::params::Params;
use crate::{Copied, RowRefusal};
use arrayvec::ArrayVec;
use std::marker::Model;

/// A row of at most 15 values, of at most 200 octets each and a size of at most 1,020.
/// It is kept as it stands in records, commands and answers: each value as its length in one octet and its octets.
#[derive(Drop)]
pub struct Row {
    octets: ArrayVec<u8, { Row::LARGEST }>,
    count: usize,
}

impl Model for Row {
    ghost use Rattle.std.specs.Prelude.{List, ℕ, ◌≡◌, length};
    ghost use Rattle.std.specs.List.{flat_map};
    ghost use Rattle.scql_base.specs.Strings.{spelled, strings_of};
    ghost use Rattle.scql_base.specs.Row.{IsRow};

    ghost Value = { List (List ℕ) };

    ghost view = { λ r. strings_of r.octets.items };

    ghost invariant = { λ r. IsRow (strings_of r.octets.items) × (r.octets.items ≡ flat_map spelled (strings_of r.octets.items)) × (r.count ≡ length (strings_of r.octets.items)) };
}

impl Row {
    /// How many values a row may have: one in each column.
    pub const MOST: usize = 15;

    /// The octets of the longest value.
    pub const LONGEST_VALUE: usize = 200;

    /// The octets that a row may take in a record.
    pub const LARGEST: usize = 1020;

    /// The octets that a row may take in a record until a card is migrated to longer rows.
    pub const LARGEST_UNMIGRATED: usize = 240;

    /// No values.
    pub fn new() -> Row
        ensures { result ≡ [] }
    {
        Row {
            octets: ArrayVec::new(),
            count: 0,
        }
    }

    /// The row that these octets spell, where they split into values that are a row. They are taken over as one run.
    pub fn read(octets: &[u8]) -> Option<Row>
        ensures { result ≡ row_from octets.now }
    {
        let mut row = Row::new();
        row.read_into(octets)?;
        Some(row)
    }

    /// Becomes the row that these octets spell, as `read` gives it. Where they spell none it stays as it is.
    pub fn read_into(&mut self, octets: &[u8]) -> Option<()>
        ensures { option_map (λ _. self.new) result ≡ row_from octets.now }
    {
        let count = count_narrow(octets)?;
        if count > Row::MOST || octets.len() > Row::LARGEST {
            return None;
        }
        self.octets.clear();
        let fits = self.octets.try_extend_from_slice(octets).is_ok();
        prove!(fits);
        self.count = count;
        Some(())
    }

    /// How many values there are.
    pub fn len(&self) -> usize
        ensures count { result ≡ length self.now }
        ensures row { IsRow self.now }
    {
        self.count
    }

    /// The octets that the values take in a record: each value's, and one for its length.
    pub fn size(&self) -> usize
        ensures { result ≡ row_size self.now }
    {
        self.octets.len()
    }

    /// The values as they stand in a record: each as its length in one octet and its octets.
    pub fn octets(&self) -> &[u8]
        ensures { result.now ≡ flat_map spelled self.now }
    {
        self.octets.as_slice()
    }

    /// The value at a place, counted from 0.
    pub fn get(&self, place: usize) -> Option<&[u8]>
        ensures { HasAt self.now place result }
    {
        Params {
            octets: self.octets.as_slice(),
            count: self.count,
        }
        .get(place)
    }

    /// Adds a value at the end. A row that refuses it stays as it is.
    pub fn push(&mut self, value: &[u8]) -> Result<(), RowRefusal>
        ensures ok { OnOk result (with_value self.old value.now ≡ Ok self.new) }
        ensures err { IfErr result (λ refusal. with_value self.old value.now ≡ Err refusal) }
        ensures same { OnErr result (self.new ≡ self.old) }
    {
        if self.count == Row::MOST {
            return Err(RowRefusal::TooMany);
        }
        if value.len() > Row::LONGEST_VALUE || self.octets.len() + value.len() >= Row::LARGEST {
            return Err(RowRefusal::TooWide);
        }
        spell(&mut self.octets, value);
        self.count += 1;
        Ok(())
    }
}

impl Copied for Row {
    fn copy(&self) -> Row {
        let mut octets = ArrayVec::new();
        let copied = octets.try_extend_from_slice(self.octets.as_slice()).is_ok();
        prove!(copied);
        Row {
            octets,
            count: self.count,
        }
    }
}

// How many values octets split into, none of which is too long for a row.
fn count_narrow(octets: &[u8]) -> Option<usize>
    ensures { result ≡ option_and_then narrow_count (params_of octets.now) }
{
    let mut count = 0;
    let mut rest = octets;
    while let Some((value, after)) = Params::first_in(rest) {
        if value.len() > Row::LONGEST_VALUE {
            return None;
        }
        rest = after;
        count += 1;
    }
    if rest.is_empty() { Some(count) } else { None }
}

// Puts a value behind others: its length in one octet, and its octets.
fn spell(octets: &mut ArrayVec<u8, { Row::LARGEST }>, value: &[u8])
    requires short { length value.now ≤ LONGEST_VALUE }
    requires room { length octets.old.items + length value.now < LARGEST }
    ensures { octets.new.items ≡ octets.old.items ++ spelled value.now }
{
    octets.push(value.len() as u8);
    let fits = octets.try_extend_from_slice(value).is_ok();
    prove!(fits);
}

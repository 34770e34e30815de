// Names and pairs as numbers, which are put in order to find two that are the same.
ghost use Rattle.std.specs.Prelude.{◌≡◌, ◌<◌, ◌≤◌, ◌^◌, true, length, vec_capacity};
ghost use Rattle.scql_base.specs.Name.{IsName};
ghost use Rattle.scql_base.specs.declared.name.TheConstants.Name.{LONGEST};
ghost use Rattle.card.specs.Apart as apart;
ghost use Rattle.card.specs.declared.apart.Label.TheVariants.{ObjectName};

use crate::sorted_records::SortedRecords;
use crate::spelled_record::SpelledRecord;
use eeprom::Heap;
use scql_base::{Name, Object};

/// What no two records share: a user's name, an object's, or a grant's object and grantee.
#[derive(Clone, Copy)]
pub(crate) enum Label {
    UserName,
    ObjectName,
    GrantPair,
}

impl Label {
    /// Whether no two records share it. The numbers are kept in `numbers`, which has room for one of each record.
    pub(crate) fn is_never_shared(
        self,
        records: &SortedRecords,
        numbers: &mut Vec<u64, Heap>,
    ) -> bool
        requires room { length records.now.items ≤ vec_capacity numbers.old }
        ensures never { result ≡ apart.is_never_shared self records.now.items }
        ensures room { vec_capacity numbers.old ≤ vec_capacity numbers.new }
    {
        numbers.clear();
        let mut place = None;
        for index in 0..records.len() {
            if let Some(number) = self.number(&records.at(index), &mut place) {
                let pushed = numbers.push(number).is_ok();
                prove!(pushed);
            }
        }
        are_different(numbers)
    }

    // The number of what a record has of this. An object is read into a place.
    fn number(self, entry: &SpelledRecord<'_>, place: &mut Option<Object>) -> Option<u64>
        ensures number { result ≡ apart.number_by self entry.now }
        ensures numbered { apart.is_numbered self entry.now ≡ true }
    {
        match self {
            Label::UserName => Some(name_number(&entry.user()?.name)),
            Label::ObjectName => object_number(entry, place),
            Label::GrantPair => {
                let grant = entry.grant()?;
                Some(pair_number(grant.object, grant.grantee))
            }
        }
    }
}

// The number of an object's name. The object is read into a place.
fn object_number(entry: &SpelledRecord<'_>, place: &mut Option<Object>) -> Option<u64>
    ensures number { result ≡ apart.number_by ObjectName entry.now }
    ensures numbered { apart.is_numbered ObjectName entry.now ≡ true }
{
    entry.object_into(place);
    match place {
        Some(object) => Some(name_number(&object.name)),
        None => None,
    }
}

// The number of a name.
fn name_number(name: &Name) -> u64
    ensures number { result ≡ apart.octets_number name.now }
    ensures name { IsName name.now }
{
    octets_number(name.octets())
}

// The number whose digits to base 256 are these octets, the least digit first.
fn octets_number(octets: &[u8]) -> u64
    requires short { length octets.now ≤ LONGEST }
    ensures number { result ≡ apart.octets_number octets.now }
    ensures small { result < 256 ^ length octets.now }
{
    match octets {
        [] => 0,
        [first, rest @ ..] => u64::from(*first) + 256 * octets_number(rest),
    }
}

// The number of two stamps.
fn pair_number(object: u32, grantee: u32) -> u64
    ensures number { result ≡ apart.pair_number object grantee }
    ensures pair { apart.is_pair_of_stamps object grantee ≡ true }
{
    u64::from(object) * 0x1_0000_0000 + u64::from(grantee)
}

// Whether no two numbers are the same. They are put in order.
fn are_different(numbers: &mut [u64]) -> bool
    ensures { result ≡ apart.are_different_numbers numbers.old }
{
    numbers.sort_unstable();
    match numbers {
        [] => true,
        [first, rest @ ..] => differs_from_next(*first, rest),
    }
}

// Whether a number and those behind it differ each from the next.
fn differs_from_next(first: u64, rest: &[u64]) -> bool
    ensures { result ≡ apart.differ_from_next first rest.now }
{
    let mut last = first;
    for number in rest {
        if *number == last {
            return false;
        }
        last = *number;
    }
    true
}

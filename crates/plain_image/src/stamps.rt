// The stamps of records: whether they rise, and whether each was given out once.
ghost use Rattle.std.specs.Prelude.{◌≡◌, ◌++◌, ◌&&◌, OnOk, map, nat_lt};
ghost use Rattle.std.specs.List.{list_all};
ghost use Rattle.eeprom.specs.StoreOf as image;
ghost use Rattle.plain_image.specs.Rules as rules;

use catalog_codec::Record;
use eeprom::Heap;
use std::alloc::AllocError;

/// Whether each stamp is below all later ones.
pub(crate) fn do_rise<R: Record>(records: &[R]) -> bool
    ensures { result ≡ rules.rise_by R.kind.key records.now }
{
    let mut rest = records;
    while let [first, behind @ ..] = rest {
        if !are_above(first.stamp(), behind) {
            return false;
        }
        rest = behind;
    }
    true
}

// Whether the stamps of records are above another one.
fn are_above<R: Record>(stamp: u32, records: &[R]) -> bool
    ensures { result ≡ list_all (λ r. nat_lt stamp (R.kind.key r)) records.now }
{
    records.iter().all(|record| stamp < record.stamp())
}

/// Puts the stamps of records behind others.
pub(crate) fn push_stamps<R: Record>(
    records: &[R],
    stamps: &mut Vec<u32, Heap>,
) -> Result<(), AllocError>
    ensures { OnOk result (stamps.new.items ≡ stamps.old.items ++ map R.kind.key records.now) }
{
    for record in records {
        stamps.push(record.stamp())?;
    }
    Ok(())
}

/// Whether stamps were given out before the next one, each once.
pub(crate) fn are_right_stamps(next: u32, stamps: &[u32]) -> bool
    ensures { result ≡ rules.are_right_stamps next stamps.now }
{
    are_before(next, stamps) && is_distinct(stamps)
}

// Whether stamps were given out before the next one.
fn are_before(next: u32, stamps: &[u32]) -> bool
    ensures { result ≡ list_all (rules.is_stamp_before next) stamps.now }
{
    stamps.iter().all(|stamp| *stamp >= 1 && *stamp < next)
}

// Whether no stamp stands twice.
fn is_distinct(stamps: &[u32]) -> bool
    ensures { result ≡ image.is_distinct stamps.now }
{
    let mut rest = stamps;
    while let [first, behind @ ..] = rest {
        if behind.contains(first) {
            return false;
        }
        rest = behind;
    }
    true
}

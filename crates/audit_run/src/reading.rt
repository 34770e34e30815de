// Sources that are read to their ends.
ghost use Rattle.std.specs.Prelude.{◌≡◌, IfErr, IfOk};
ghost use Rattle.audit_run.specs.Reading.{AreRead, AreStopped, IsRead, IsStopped, sources_of, supply_of};

use crate::AuditStatus;
use eeprom::{Heap, Source};

/// How many octets an image may have.
const LONGEST_IMAGE: usize = 262_144;

/// How many octets a transcript may have.
const LONGEST_TRANSCRIPT: usize = 67_108_864;

/// How many octets are asked for at a time.
const PIECE: usize = 4096;

/// What the three sources of an audit held.
#[derive(Drop)]
pub(crate) struct Held {
    pub(crate) first: Vec<u8, Heap>,
    pub(crate) transcript: Vec<u8, Heap>,
    pub(crate) last: Vec<u8, Heap>,
}

/// Reads the sources, one after another.
pub(crate) fn read_sources<S: Source>(
    alloc: Heap,
    first: &mut S,
    transcript: &mut S,
    last: &mut S,
) -> Result<Held, AuditStatus>
    ensures read { IfOk result (λ held. AreRead held.first.items held.transcript.items held.last.items
        (sources_of S.left S.source_faults first.old transcript.old last.old) (sources_of S.left S.source_faults first.new transcript.new last.new)) }
    ensures stopped { IfErr result (λ status. AreStopped status
        (sources_of S.left S.source_faults first.old transcript.old last.old) (sources_of S.left S.source_faults first.new transcript.new last.new)) }
{
    Ok(Held {
        first: read_all(alloc, first, LONGEST_IMAGE)?,
        transcript: read_all(alloc, transcript, LONGEST_TRANSCRIPT)?,
        last: read_all(alloc, last, LONGEST_IMAGE)?,
    })
}

// All octets of a source, which may have so many at most.
fn read_all<S: Source>(
    alloc: Heap,
    source: &mut S,
    most: usize,
) -> Result<Vec<u8, Heap>, AuditStatus>
    ensures read { IfOk result (λ octets. IsRead most octets.items (supply_of S.left S.source_faults source.old) (supply_of S.left S.source_faults source.new)) }
    ensures stopped { IfErr result (λ status. IsStopped status most (supply_of S.left S.source_faults source.old) (supply_of S.left S.source_faults source.new)) }
{
    let mut octets = Vec::new(alloc);
    let mut piece = [0; PIECE];
    let mut room = most;
    loop {
        let Ok(count) = source.read(&mut piece) else {
            return Err(AuditStatus::ReadFault);
        };
        if count == 0 {
            return Ok(octets);
        }
        if room < count {
            return Err(AuditStatus::TooLong);
        }
        room -= count;
        if octets.extend_from_slice(&piece[..count]).is_err() {
            return Err(AuditStatus::NoMemory);
        }
    }
}

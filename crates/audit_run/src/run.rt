// A run that audits: three sources are read, and one line says the verdict on what they held.
ghost use Rattle.std.specs.Prelude.{◌≡◌, true, false, IfErr, IfOk};
ghost use Rattle.audit_run.specs.Reading.{sources_of};
ghost use Rattle.audit_run.specs.Runs.{CountsSaying, Judges, Says, Stops, Watches, has_verdict};
ghost use Rattle.audit_run.specs.declared.verdict.Verdict.{Verdict as ModelVerdict};

use crate::judging::verdict_on;
use crate::reading::read_sources;
use crate::text::verdict_text;
use crate::{Answering, AuditStatus, Verdict};
use eeprom::{Heap, Outlet, Source};
use person::Person;

/// Reads a card's image, a transcript that begins with it, and the image afterwards, and gives one line with the verdict. A person is shown how far the transcript is gone through.
pub fn run_audit<A: Answering, S: Source, O: Outlet, P: Person>(
    alloc: Heap,
    first: &mut S,
    transcript: &mut S,
    last: &mut S,
    outlet: &mut O,
    person: &mut P,
) -> AuditStatus
    // Where it came to a verdict, it had read all sources to their ends, and said the verdict on what they held.
    ensures says { Says result (Judges P.lost P.shown
        (sources_of S.left S.source_faults first.old transcript.old last.old) (sources_of S.left S.source_faults first.new transcript.new last.new) person.old person.new)
        (O.given outlet.old) (O.given outlet.new) }
    // Where it came to none, it stopped at a source for a cause that the source has, or there was no memory,
    ensures stops { Stops result
        (sources_of S.left S.source_faults first.old transcript.old last.old) (sources_of S.left S.source_faults first.new transcript.new last.new) }
    // and said nothing.
    ensures silent { has_verdict result ≡ false → outlet.new ≡ outlet.old }
    ensures rest { has_verdict result ≡ true → O.leaves outlet.old outlet.new }
    ensures counts { CountsSaying result (O.sink_faults outlet.old) (O.sink_faults outlet.new) }
    ensures watches { Watches P.lost P.shown result person.old person.new }
{
    match audit::<A, S, P>(alloc, first, transcript, last, person) {
        Ok(verdict) => say(verdict, outlet),
        Err(status) => status,
    }
}

// Reads the sources, and comes to the verdict on what they held.
fn audit<A: Answering, S: Source, P: Person>(
    alloc: Heap,
    first: &mut S,
    transcript: &mut S,
    last: &mut S,
    person: &mut P,
) -> Result<Verdict, AuditStatus>
    ensures judges { IfOk result (Judges P.lost P.shown
        (sources_of S.left S.source_faults first.old transcript.old last.old) (sources_of S.left S.source_faults first.new transcript.new last.new) person.old person.new) }
    ensures none { IfErr result (λ status. has_verdict status ≡ false) }
    ensures stops { IfErr result (λ status. Stops status
        (sources_of S.left S.source_faults first.old transcript.old last.old) (sources_of S.left S.source_faults first.new transcript.new last.new)) }
    ensures watches { IfErr result (λ status. Watches P.lost P.shown status person.old person.new) }
{
    let held = read_sources(alloc, first, transcript, last)?;
    match verdict_on::<A, P>(alloc, &held.first, &held.transcript, &held.last, person) {
        Ok(verdict) => Ok(verdict),
        Err(_) => Err(AuditStatus::NoMemory),
    }
}

// Says a verdict, and ends the run by it.
fn say<O: Outlet>(verdict: Verdict, outlet: &mut O) -> AuditStatus
    ensures says { Says result (λ (said : ModelVerdict). said ≡ verdict) (O.given outlet.old) (O.given outlet.new) }
    ensures there { has_verdict result ≡ true }
    ensures rest { O.leaves outlet.old outlet.new }
    ensures counts { CountsSaying result (O.sink_faults outlet.old) (O.sink_faults outlet.new) }
{
    match outlet.give(&verdict_text(verdict)) {
        Ok(()) => AuditStatus::of(verdict),
        Err(_) => AuditStatus::WriteFault,
    }
}

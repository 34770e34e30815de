// A transcript is judged.
ghost use Rattle.std.specs.Prelude.{◌≡◌, ◌⊎◌, IfOk, OnErr, None};
ghost use Rattle.person.specs.Showing.{Shows};
ghost use Rattle.audit_run.specs.Progress.{lines_passed, passed_text, watched_text};
ghost use Rattle.audit_run.specs.Verdicts.{IsVerdict};

use crate::comparing::first_difference;
use crate::transcript::{count_inputs, first_malformed};
use crate::{Answering, Verdict};
use eeprom::Heap;
use person::Person;
use std::alloc::AllocError;

/// The verdict on a card's image, a transcript that begins with it, and the image afterwards. A person is shown how far the transcript is gone through.
pub fn verdict_on<A: Answering, P: Person>(
    alloc: Heap,
    first: &[u8],
    transcript: &[u8],
    last: &[u8],
    person: &mut P,
) -> Result<Verdict, AllocError>
    ensures found { IfOk result (IsVerdict first.now transcript.now last.now) }
    ensures watched { IfOk result (λ verdict. Shows P.lost P.shown (watched_text transcript.now verdict) person.old person.new) }
    // There was no memory for one of the images.
    ensures unfinished { OnErr result ((person.new ≡ person.old) ⊎ Shows P.lost P.shown (passed_text (lines_passed transcript.now None)) person.old person.new) }
{
    let Some(mut machine) = A::open(alloc, first)? else {
        return Ok(Verdict::NotACard);
    };
    if let Some(line) = first_malformed(transcript) {
        return Ok(Verdict::Malformed { line });
    }
    if let Some(line) = first_difference(&mut machine, transcript, person) {
        return Ok(Verdict::Differs { line });
    }
    if !machine.is_committed_in(alloc, last)? {
        return Ok(Verdict::ImageDiffers);
    }
    Ok(Verdict::Yes {
        lines: count_inputs(transcript),
    })
}

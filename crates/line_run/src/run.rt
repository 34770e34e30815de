// A run over its input.
ghost use Rattle.std.specs.Prelude.{◌≡◌, ◌<◌, ◌≤◌, [], true, length};
ghost use Rattle.eeprom.specs.Chip.{Becomes};
ghost use Rattle.scql_model.specs.Lines.{lines, state_after};
ghost use Rattle.line_input.specs.Reading.{CountsSource, longest_input};
ghost use Rattle.line_run.specs.Causes.{CausesEnd};
ghost use Rattle.line_run.specs.Extent.{RunsInput};

use crate::{LineStop, Responder};
use eeprom::Source;
use line_input::{InputEnd, LineAnswerer, answer_lines};
use taken_line::TakenLine;

/// Answers each line of the input.
pub fn run_lines<S: Source, R: Responder>(source: &mut S, responder: R) -> (InputEnd<LineStop>, R)
    requires { R.is_ready responder }
    // From a state on, where the responder is in it, one extent says which of its lines were answered and in which it stopped.
    ensures runs { (state : R.State) → R.is_at responder state
        → Becomes (λ input left. RunsInput R.chip (λ r. (R.faults r).eeprom) R.language state result.0 input left responder result.1) (S.left source.old) (S.left source.new) }
    // Where it read its input to its end it is at the state after all lines.
    ensures at { (state : R.State) → R.is_at responder state
        → result.0 ≡ InputEnd.Ended → Becomes (λ input left. R.is_at result.1 (state_after R.language state (lines input true))) (S.left source.old) (S.left source.new) }
    ensures whole { result.0 ≡ InputEnd.Ended → Becomes (λ input left. (left ≡ []) × (length input ≤ longest_input)) (S.left source.old) (S.left source.new) }
    ensures too_long { result.0 ≡ InputEnd.TooLong → Becomes (λ input left. longest_input < length input) (S.left source.old) (S.left source.new) }
    // Each fault has its cause, and without one the counts stay.
    ensures causes { CausesEnd result.0 (R.faults responder) (R.faults result.1) }
    ensures source { CountsSource result.0 (S.source_faults source.old) (S.source_faults source.new) }
    ensures memory { result.0 ≡ InputEnd.Stopped LineStop.NoMemory → R.takes_memory ≡ true }
    ensures goes_on { R.goes_on responder result.1 }
{
    let mut answering = Answering { responder };
    let end = answer_lines(source, &mut answering);
    let Answering { responder } = answering;
    (end, responder)
}

// A responder to which lines are handed.
struct Answering<R: Responder> {
    responder: R,
}

impl<R: Responder> LineAnswerer for Answering<R> {
    ghost use Rattle.line_run.specs.Answers.{AnswersLines, StopsInLine};
    ghost use Rattle.line_run.specs.AnswersLaws.{AnswersLines-none, AnswersLines-then};

    type Stop = LineStop;

    ghost is_ready = { λ a. R.is_ready a.responder };

    ghost answers = { λ old lines new. AnswersLines R.language R.is_at R.is_ready R.chip R.faults R.goes_on old.responder lines new.responder };

    ghost stops = { λ old line stop new. StopsInLine R.language R.is_at R.chip R.faults R.takes_memory R.goes_on old.responder line stop new.responder };

    fn answer(&mut self, line: Option<TakenLine<'_>>) -> Result<(), LineStop> {
        self.responder.answer_line(line)
    }

    ghost none = { λ a ready. AnswersLines-none R.language R.is_at R.is_ready R.chip R.faults R.goes_on a.responder ready (R.over a.responder ready) (R.goes_on_same a.responder) };

    ghost then = { λ a b c first second before after. AnswersLines-then R.language R.is_at R.is_ready R.chip R.faults R.goes_on R.goes_on_then a.responder b.responder c.responder first second before after };
}

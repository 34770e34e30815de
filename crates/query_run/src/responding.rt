// A desk that answers the lines of a run.
ghost use Rattle.std.specs.Prelude.{IsTrue, option_map};
ghost use Rattle.person.specs.Showing.{ShowsSome};
ghost use Rattle.query_run.specs.Answering.{AnsweringLeaves};
ghost use Rattle.query_run.specs.Fetching.{ReadsAs};
ghost use Rattle.query_run.specs.QueryLines.{Asking};
ghost use Rattle.query_run.specs.Responding.{HearsLine};

use crate::answering::answer_line;
use crate::{Queries, ToldDesk};
use eeprom::Heap;
use guide::{Guide, Occasion};
use line_run::{LineStop, Responder};
use person::Person;
use taken_line::TakenLine;

/// A desk, a person who watches how rows are fetched and one who is told of lines, and whether a line was refused so far.
pub(crate) struct QueryDesk<D: ToldDesk, P: Person, N: Person> {
    pub(crate) alloc: Heap,
    pub(crate) desk: D,
    pub(crate) person: P,
    pub(crate) guide: Guide<Queries>,
    pub(crate) notices: N,
    pub(crate) refused: bool,
}

impl<D: ToldDesk, P: Person, N: Person> Responder for QueryDesk<D, P, N> {
    ghost use Rattle.std.specs.Prelude.{IsTrue, true};
    ghost use Rattle.query_run.specs.QueryLines.{Asking, query_lines};
    ghost use Rattle.query_run.specs.Responding.{AsksSo, LeadsOn};
    ghost use Rattle.query_run.specs.RespondingLaws.{asking-over, leads-none, leads-then, queries-lawful};

    ghost State = { Asking };

    ghost language = { query_lines };

    ghost is_at = { λ r asking. AsksSo D.is_at asking r.desk r.refused };

    ghost is_ready = { λ r. IsTrue (D.is_live r.desk) };

    ghost chip = { λ r. D.chip r.desk };

    ghost faults = { λ r. record { eeprom = D.faults r.desk; outlet = D.sink_faults r.desk } };

    ghost takes_memory = { true };

    ghost goes_on = { λ old new. LeadsOn D.goes_on P.lost P.shown N.lost N.shown old.desk new.desk old.person new.person old.notices new.notices };

    fn answer_line(&mut self, line: Option<TakenLine<'_>>) -> Result<(), LineStop> {
        let refused = respond(
            self.alloc,
            &mut self.desk,
            line,
            &mut self.person,
            &mut self.guide,
            &mut self.notices,
        )?;
        self.refused |= refused;
        Ok(())
    }

    ghost lawful = { queries-lawful };

    ghost over = { λ r ready asking at. asking-over D.is_at asking r.desk r.refused (D.chip r.desk) (D.opens r.desk) at };

    ghost goes_on_same = { λ r. leads-none D.goes_on P.lost P.shown N.lost N.shown r.desk r.person r.notices (D.goes_on_same r.desk) };

    ghost goes_on_then = { λ old mid new ready first second. leads-then D.goes_on P.lost P.shown N.lost N.shown old.desk mid.desk new.desk old.person mid.person new.person old.notices mid.notices new.notices (D.goes_on_then old.desk mid.desk new.desk) first second };
}

// Answers a whole line, as a run hears it, and tells whether it was refused. A person is told of the line before it is answered, and of what came of it.
fn respond<D: ToldDesk, P: Person, N: Person>(
    alloc: Heap,
    desk: &mut D,
    line: Option<TakenLine<'_>>,
    person: &mut P,
    guide: &mut Guide<Queries>,
    notices: &mut N,
) -> Result<bool, LineStop>
    requires { IsTrue (D.is_live desk.old) }
    ensures hears { (asking : Asking) → ReadsAs D.is_at asking.machine desk.old
        → HearsLine D.is_at D.chip asking (option_map (λ line. line.octets.now) line.entry) result desk.old desk.new }
    ensures leaves { AnsweringLeaves D.is_live D.faults D.sink_faults D.mark D.goes_on P.lost P.shown result desk.old desk.new person.old person.new }
    ensures told { ShowsSome N.lost N.shown notices.old notices.new }
{
    let mut why = None;
    guide.tell(Occasion::Line { line }, notices);
    let result = answer_line(alloc, desk, line, person, &mut why);
    let outcome = Occasion::Outcome {
        line,
        why,
        cells: None,
    };
    guide.tell(outcome, notices);
    result
}

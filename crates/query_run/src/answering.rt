// Lines of queries, answered on a desk.
ghost use Rattle.std.specs.Prelude.{◌≡◌, IsTrue, option_map};
ghost use Rattle.query_run.specs.Answering as model;
ghost use Rattle.query_run.specs.Answering.{AnswersLine, IsAnswerable};
ghost use Rattle.query_run.specs.Fetching.{CanAsk};
ghost use Rattle.query_run.specs.QueryLines.{asked_refused, asked_text, is_refused};
ghost use Rattle.query_run.specs.QueryText.{query_text};

use crate::Unfetched;
use crate::finding::find_answer;
use crate::printing::{print_answer, say};
use card_link::Desk;
use eeprom::{Heap, SinkFault};
use guide::Why;
use line_run::LineStop;
use person::Person;
use query::Query;
use script::is_nothing;
use taken_line::TakenLine;
use terminal::fault_text;

// Why a line isn't answered whose rows aren't there.
fn stop_of(end: Unfetched) -> LineStop
    ensures { result ≡ model.stop_of end }
{
    match end {
        Unfetched::Mute => LineStop::Eeprom,
        Unfetched::NoMemory | Unfetched::Refused { .. } => LineStop::NoMemory,
    }
}

// Whether a line was refused whose text was printed.
fn told(said: Result<(), SinkFault>, refused: bool) -> Result<bool, LineStop>
    ensures { result ≡ model.told_as said refused }
{
    match said {
        Ok(()) => Ok(refused),
        Err(_) => Err(LineStop::Outlet),
    }
}

// Answers a query, and tells whether it was refused, and why. Nothing is printed before all is fetched, joined and put in order.
fn answer_query<L: Desk, P: Person>(
    alloc: Heap,
    desk: &mut L,
    query: &Query,
    person: &mut P,
    why: &mut Option<Why>,
) -> Result<bool, LineStop>
    requires { CanAsk L.is_live (IsAnswerable query.now) desk.old }
    ensures { AnswersLine (λ s. query_text s query.now) (λ s. is_refused s query.now)
        L.is_at L.given L.is_live L.faults L.sink_faults L.mark L.chip L.goes_on P.lost P.shown result desk.old desk.new person.old person.new }
{
    match find_answer(alloc, desk, query, person) {
        Ok(answer) => {
            *why = answer.why();
            told(print_answer(desk, query, &answer), answer.is_refusal())
        }
        Err(end) => Err(stop_of(end)),
    }
}

/// Answers a whole line, and tells whether it was refused, and why.
pub(crate) fn answer_line<L: Desk, P: Person>(
    alloc: Heap,
    desk: &mut L,
    line: Option<TakenLine<'_>>,
    person: &mut P,
    why: &mut Option<Why>,
) -> Result<bool, LineStop>
    requires { IsTrue (L.is_live desk.old) }
    ensures { let octets = option_map (λ line. line.octets.now) line.entry in
        AnswersLine (λ s. asked_text s octets) (λ s. asked_refused s octets)
        L.is_at L.given L.is_live L.faults L.sink_faults L.mark L.chip L.goes_on P.lost P.shown result desk.old desk.new person.old person.new }
{
    let Some(line) = line else {
        *why = Some(Why::TooLong);
        return told(say(desk, b"error line too long\n"), true);
    };
    if is_nothing(line.octets) {
        return Ok(false);
    }
    match Query::read(line) {
        Ok(query) => answer_query(alloc, desk, &query, person, why),
        Err(fault) => {
            *why = Some(Why::Fault { fault });
            told(say(desk, &fault_text(fault)), true)
        }
    }
}

// A run over queries for a user, and the card that it opens.
ghost use Rattle.std.specs.Prelude.{◌≡◌, ◌⊎◌, ℕ, List, true, IsTrue, IfSome, Some};
ghost use Rattle.scql_model.specs.Database.{Database};
ghost use Rattle.scql_model.specs.Machine.{Machine};
ghost use Rattle.card.specs.Making.{OpensToNone};
ghost use Rattle.card.specs.Opened.{IsOpenTo};
ghost use Rattle.program.specs.Ends.{AllFaults, EndsBy, reads_all};
ghost use Rattle.query_run.specs.Printing.{Leads};
ghost use Rattle.query_run.specs.Running.{RunLeaves};
ghost use Rattle.query_run.specs.Statuses as model;
ghost use Rattle.query_run.specs.Statuses.{program_status};
ghost use Rattle.query_run.specs.UserRuns.{AnswersUser, IsUnopened, IsWithout, ReadsAll, RunsUser, TellsRefusal};

use crate::printing::say;
use crate::queries::user_refused;
use crate::{Queries, QueryStatus, ToldDesk, answer_queries};
use card::{Card, LiveCard, OpenRefusal};
use card_asking::{Unpresented, present};
use card_link::Desk;
use eeprom::{Bench, Heap, Source};
use guide::{Guide, Occasion};
use person::Person;
use planner::Closing;
use scql_base::{Name, StatusWord};
use terminal::closing_text;

// Tells that a user was refused by this word.
fn refuse<D: Desk>(desk: &mut D, word: StatusWord) -> QueryStatus
    ensures tells { TellsRefusal word (program_status result) (D.given desk.old) (D.given desk.new) }
    ensures leads { Leads D.is_at D.is_live D.faults D.mark D.chip D.goes_on desk.old desk.new }
    ensures ends { (source : ℕ) → EndsBy (program_status result)
        (record { eeprom = D.faults desk.old; source = source; outlet = D.sink_faults desk.old })
        (record { eeprom = D.faults desk.new; source = source; outlet = D.sink_faults desk.new }) }
{
    match say(desk, &closing_text(Closing::Refused { word })) {
        Ok(()) => QueryStatus::Refused,
        Err(_) => QueryStatus::WriteFault,
    }
}

// Presents a user on a desk, and answers the lines of the input as queries; or tells the refusal, and reads no line.
fn answer_for<S: Source, D: ToldDesk, P: Person, N: Person>(
    alloc: Heap,
    user: &Name,
    source: &mut S,
    mut desk: D,
    person: P,
    mut notices: N,
) -> (QueryStatus, D, P, N)
    requires { IsTrue (D.is_live desk) }
    ensures runs { (m : Machine) → D.is_at desk m → AnswersUser D.chip D.faults S.left m user.now (program_status result.0) source.old source.new desk result.1 }
    ensures whole { reads_all (program_status result.0) ≡ true
        → ReadsAll (program_status result.0) source.old source.new (S.left source.old) (S.left source.new) (D.chip desk).still.given (D.chip result.1).still.given }
    ensures opened { ¬ (result.0 ≡ QueryStatus.NotACard) }
    ensures goes_on { D.goes_on desk result.1 }
    ensures leaves { RunLeaves D.faults D.sink_faults S.source_faults S.left P.lost P.shown N.lost N.shown result.0 source.old source.new desk result.1 person result.2 notices result.3 }
{
    let mut guide = Guide::new(Queries::new(user), notices.presence());
    match present(&mut desk, user) {
        Ok(()) => answer_queries(alloc, source, desk, person, guide, notices),
        Err(Unpresented::Refused { word }) => {
            let status = refuse(&mut desk, word);
            let message = user_refused(user, word);
            guide.tell(Occasion::Message { message: &message }, &mut notices);
            (status, desk, person, notices)
        }
        Err(Unpresented::Mute) => (QueryStatus::Eeprom, desk, person, notices),
    }
}

// How a run ends whose card doesn't open.
fn status_of(refusal: OpenRefusal) -> QueryStatus
    ensures { result ≡ model.status_of refusal }
{
    match refusal {
        OpenRefusal::NoMemory => QueryStatus::NoMemory,
        OpenRefusal::NotACard => QueryStatus::NotACard,
        OpenRefusal::Fault => QueryStatus::Eeprom,
    }
}

/// Opens the card of the bench, presents a user on channel 0, and answers the lines of the input as queries; a refusal is told, and then no line is read.
/// The person who watches how rows are fetched is given back, and so is the one who is told of the lines.
pub fn run_query<S: Source, B: Bench, P: Person, N: Person>(
    alloc: Heap,
    user: Name,
    source: &mut S,
    bench: &mut B,
    person: P,
    notices: N,
) -> (QueryStatus, P, N)
    ensures runs { (db : Database) → IsOpenTo (B.chip bench.old) db → RunsUser B.chip B.faults S.left db user (program_status result.0) source.old source.new bench.old bench.new }
    // There is no card: no line is read and nothing is given,
    ensures not_a_card { result.0 ≡ QueryStatus.NotACard → IfSome (B.chip bench.old).image OpensToNone × IsUnopened source.old source.new (B.chip bench.old) (B.chip bench.new) }
    // and so it ends wherever the image opens to no database, unless the EEPROM fails or there is no memory.
    ensures no_card { (image : List ℕ) → (B.chip bench.old).image ≡ Some image → OpensToNone image
        → ((result.0 ≡ QueryStatus.NotACard) ⊎ IsWithout (program_status result.0)) × IsUnopened source.old source.new (B.chip bench.old) (B.chip bench.new) }
    ensures whole { reads_all (program_status result.0) ≡ true
        → ReadsAll (program_status result.0) source.old source.new (S.left source.old) (S.left source.new) (B.chip bench.old).still.given (B.chip bench.new).still.given }
    ensures leaves { RunLeaves B.faults B.sink_faults S.source_faults S.left P.lost P.shown N.lost N.shown result.0 source.old source.new bench.old bench.new person result.1 notices result.2 }
{
    match Card::open(alloc, bench) {
        Ok(card) => {
            let desk = LiveCard::new(card, bench);
            let (status, desk, person, notices) = answer_for(
                alloc, &user, source, desk, person, notices,
            );
            desk.into_bench();
            (status, person, notices)
        }
        Err(refusal) => (status_of(refusal), person, notices),
    }
}

// A run over lines of queries.
ghost use Rattle.std.specs.Prelude.{◌≡◌, ◌≤◌, [], IsTrue, length};
ghost use Rattle.eeprom.specs.Chip.{Becomes};
ghost use Rattle.line_input.specs.Reading.{longest_input};
ghost use Rattle.scql_model.specs.Machine.{Machine};
ghost use Rattle.query_run.specs.Fetching.{ReadsAs};
ghost use Rattle.query_run.specs.Running.{EndsOnDesk, RunsQueries};
ghost use Rattle.query_run.specs.Statuses.{program_status};

use crate::responding::QueryDesk;
use crate::{Queries, QueryStatus, ToldDesk};
use eeprom::{Heap, Source};
use guide::{Guide, Occasion};
use line_input::InputEnd;
use line_run::run_lines;
use person::Person;

/// Answers the lines of the input as queries on channel 0 of a card, and gives back its desk, the person who watched how rows are fetched,
/// and the one who was told of the lines.
pub fn answer_queries<S: Source, D: ToldDesk, P: Person, N: Person>(
    alloc: Heap,
    source: &mut S,
    desk: D,
    person: P,
    mut guide: Guide<Queries>,
    mut notices: N,
) -> (QueryStatus, D, P, N)
    requires { IsTrue (D.is_live desk) }
    ensures { EndsOnDesk ((m : Machine) → ReadsAs D.is_at m desk → RunsQueries D.chip D.faults m (program_status result.0) (S.left source.old) (S.left source.new) desk result.1)
        (Becomes (λ input left. (left ≡ []) × (length input ≤ longest_input)) (S.left source.old) (S.left source.new))
        D.goes_on D.faults D.sink_faults S.source_faults S.left P.lost P.shown N.lost N.shown result.0 source.old source.new desk result.1 person result.2 notices result.3 }
{
    guide.tell(Occasion::Start { cells: None }, &mut notices);
    let queries = QueryDesk {
        alloc,
        desk,
        person,
        guide,
        notices,
        refused: false,
    };
    let (end, queries) = run_lines(source, queries);
    let QueryDesk {
        alloc: _,
        desk,
        person,
        mut guide,
        mut notices,
        refused,
    } = queries;
    let whole = matches!(end, InputEnd::Ended);
    guide.tell(Occasion::End { whole }, &mut notices);
    let status = QueryStatus::of_input(end, refused);
    (status, desk, person, notices)
}

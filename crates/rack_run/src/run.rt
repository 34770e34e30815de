// A run over a rack.
ghost use Rattle.rack_run.specs.Runs.{CountsDevices, CountsRun, RunsToEnd, ShowsBoth};

use crate::RackStatus;
use crate::answering::RackRun;
use crate::line_rack::LineRack;
use crate::prompt::show_prompt;
use crate::rack_lines::RackLines;
use crate::tally::Tally;
use card_link::CardLink;
use eeprom::{Outlet, Source};
use guide::{Guide, Occasion};
use line_input::answer_lines;
use person::Person;
use reader_rack::Rack;

/// Carries out each line of the input. A card that goes mute doesn't end the run. A person is shown which reader is current before each line, and
/// another one, who may sit at the same screen, is told of the lines.
pub fn run_rack<S: Source, O: Outlet, L: CardLink, P: Person, N: Person>(
    source: &mut S,
    rack: &mut Rack<O, L>,
    person: &mut P,
    notices: &mut N,
) -> RackStatus
    // What was printed, where the rack is then, and how the input was left.
    ensures ends { RunsToEnd L.is_at L.is_live L.faults result (S.left source.old) (S.left source.new)
        rack.old.readers rack.old.current.number rack.new.readers rack.new.current.number (O.given rack.old.outlet) (O.given rack.new.outlet) }
    // Each fault has its cause, and without one the counts stay.
    ensures cards { CountsRun L.faults result rack.old.readers rack.new.readers }
    ensures devices { CountsDevices result (S.source_faults source.old) (S.source_faults source.new) (O.sink_faults rack.old.outlet) (O.sink_faults rack.new.outlet) }
    // A person is shown which reader is current, and the other one some text.
    ensures shows { ShowsBoth P.lost P.shown N.lost N.shown result (S.left source.old) (S.left source.new) rack.old.current.number person.old person.new notices.old notices.new }
{
    let mut guide = Guide::new(RackLines::new(), notices.presence());
    guide.tell(Occasion::Start { cells: None }, notices);
    let status = run_over(source, rack, person, &mut guide, notices);
    let whole = matches!(status, RackStatus::Done | RackStatus::Refused);
    guide.tell(Occasion::End { whole }, notices);
    status
}

// The same over any rack, behind the greeting.
fn run_over<S: Source, R: LineRack, P: Person, N: Person>(
    source: &mut S,
    rack: &mut R,
    person: &mut P,
    guide: &mut Guide<RackLines>,
    notices: &mut N,
) -> RackStatus
    ensures ends { RunsToEnd R.is_at R.is_live R.faults result (S.left source.old) (S.left source.new) (R.readers rack.old) (R.current rack.old) (R.readers rack.new) (R.current rack.new) (R.given rack.old) (R.given rack.new) }
    ensures cards { CountsRun R.faults result (R.readers rack.old) (R.readers rack.new) }
    ensures devices { CountsDevices result (S.source_faults source.old) (S.source_faults source.new) (R.sink_faults rack.old) (R.sink_faults rack.new) }
    ensures shows { ShowsBoth P.lost P.shown N.lost N.shown result (S.left source.old) (S.left source.new) (R.current rack.old) person.old person.new notices.old notices.new }
{
    show_prompt(rack.current_reader(), person);
    let mut run = RackRun {
        rack,
        person,
        guide,
        notices,
        tally: Tally::new(),
    };
    let end = answer_lines(source, &mut run);
    RackStatus::of_input(end, run.tally)
}

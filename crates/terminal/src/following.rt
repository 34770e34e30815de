// The steps of a plan, followed on a card.
ghost use Rattle.std.specs.Prelude.{◌≡◌, ◌≢◌, [], IsTrue, OnOk, OnErr};
ghost use Rattle.scql_model.specs.Machine.{Machine};
ghost use Rattle.script.specs.Commands.{IsSendable};
ghost use Rattle.planner.specs.Planned.{IfSent};
ghost use Rattle.card_asking.specs.Following.{ComesOn, OnlyReads, given_by, run_of};
ghost use Rattle.terminal.specs.Going.{printed_row, rows_text, PlanRuns, StepRuns};
ghost use Rattle.terminal.specs.Failing.{GivesToDesk, RunLeaves};

use crate::failure::Failure;
use crate::printing::{LONGEST_ROW, put_row_text};
use apdu::Reply;
use arrayvec::ArrayVec;
use card_link::Desk;
use planner::{Closing, Plan, Step};
use scql_base::StatusWord;

/// What is used again for each step of a plan: the step, the last reply, and the text of a row.
#[derive(Drop)]
pub(crate) struct Room {
    pub(crate) step: Step,
    pub(crate) reply: Reply,
    text: ArrayVec<u8, LONGEST_ROW>,
}

impl Room {
    pub fn new() -> Room {
        Room {
            step: Step::ResetCard,
            reply: Reply {
                body: ArrayVec::new(),
                word: StatusWord::MEMORY_FAILURE,
            },
            text: ArrayVec::new(),
        }
    }
}

/// Gives a piece of output.
pub(crate) fn give<L: Desk>(desk: &mut L, octets: &[u8]) -> Result<(), Failure>
    ensures { GivesToDesk L.is_at L.given L.is_live L.faults L.sink_faults L.mark L.chip L.goes_on octets.now result desk.old desk.new }
{
    match desk.give(octets) {
        Ok(()) => Ok(()),
        Err(_) => Err(Failure::Outlet),
    }
}

/// Does what the step wants, and puts the next step in its place.
fn follow<L: Desk>(desk: &mut L, plan: &mut Plan, room: &mut Room) -> Result<(), Failure>
    requires live { IsTrue (L.is_live desk.old) }
    requires sendable { IfSent room.old.step IsSendable }
    ensures runs { (m : Machine) → L.is_at desk.old m → StepRuns L.is_at L.given L.mark L.chip m plan.old room.old.step result desk.old desk.new plan.new room.new.step }
    ensures leaves { RunLeaves L.is_live L.faults L.sink_faults L.goes_on result desk.old desk.new }
    ensures comes_on { OnOk result (ComesOn plan.old room.old.step plan.new room.new.step) }
{
    print_given(desk, plan, room)?;
    match card_asking::follow(desk, plan, &mut room.step, &mut room.reply) {
        Ok(()) => Ok(()),
        Err(_) => Err(Failure::Card),
    }
}

// The row that a step has is printed, if it has one.
fn print_given<L: Desk>(desk: &mut L, plan: &Plan, room: &mut Room) -> Result<(), Failure>
    ensures step { room.new.step ≡ room.old.step }
    ensures gives { GivesToDesk L.is_at L.given L.is_live L.faults L.sink_faults L.mark L.chip L.goes_on (rows_text (given_by plan.now room.old.step)) result desk.old desk.new }
    ensures row { OnErr result (given_by plan.now room.old.step ≢ []) }
    ensures still { given_by plan.now room.old.step ≡ [] → L.mark desk.new ≡ L.mark desk.old }
{
    match &room.step {
        Step::Row { .. } => print_row(desk, plan, &mut room.text),
        _ => Ok(()),
    }
}

// The row that a plan has is printed.
fn print_row<L: Desk>(
    desk: &mut L,
    plan: &Plan,
    text: &mut ArrayVec<u8, LONGEST_ROW>,
) -> Result<(), Failure>
    ensures { GivesToDesk L.is_at L.given L.is_live L.faults L.sink_faults L.mark L.chip L.goes_on (printed_row plan.now.row) result desk.old desk.new }
{
    put_row_text(plan.row(), text);
    give(desk, text.as_slice())
}

/// Carries out a plan to its end, but for its closing line.
pub(crate) fn carry_out<L: Desk>(
    desk: &mut L,
    plan: &mut Plan,
    room: &mut Room,
) -> Result<Closing, Failure>
    requires live { IsTrue (L.is_live desk.old) }
    ensures runs { (m : Machine) → L.is_at desk.old m → PlanRuns L.is_at L.given L.mark L.chip m (OnlyReads plan.old) (run_of m plan.old) result desk.old desk.new }
    ensures leaves { RunLeaves L.is_live L.faults L.sink_faults L.goes_on result desk.old desk.new }
{
    plan.next_into(None, &mut room.step);
    loop {
        if let Step::Done { closing } = &room.step {
            return Ok(*closing);
        }
        follow(desk, plan, room)?;
    }
}

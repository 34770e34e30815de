// The steps of a plan, followed on a card.
ghost use Rattle.std.specs.Prelude.{◌≡◌, ◌∷◌, List, IsTrue, IfOk, OnOk, OnErr};
ghost use Rattle.scql_model.specs.Machine.{Machine};
ghost use Rattle.scql_model.specs.Matching.{Values};
ghost use Rattle.script.specs.Commands.{IsSendable};
ghost use Rattle.card_link.specs.Link.{Holds, IsOneOf, LeavesOpen};
ghost use Rattle.planner.specs.declared.closing.Closing.{Closing as ModelClosing};
ghost use Rattle.planner.specs.Planned.{IfSent};
ghost use Rattle.card_asking.specs.Calls.{AskingLeaves};
ghost use Rattle.card_asking.specs.Following.{ComesOn, Follows, RunsOver, given_by, heard_at, run_from, run_of, turn_by};
ghost use Rattle.card_asking.specs.Giving.{GivesRows, behind_step};

use crate::{Mute, ask};
use apdu::Reply;
use card_link::CardLink;
use planner::{Closing, Plan, Step};

/// Does what a step of a plan wants, and puts the next step in its place. A row that the step has is for the caller, before the call.
pub fn follow<L: CardLink>(
    link: &mut L,
    plan: &mut Plan,
    step: &mut Step,
    reply: &mut Reply,
) -> Result<(), Mute>
    requires live { IsTrue (L.is_live link.old) }
    requires sendable { IfSent step.old IsSendable }
    ensures follows { (m : Machine) → L.is_at link.old m → OnOk result (Follows L.is_at m plan.old step.old (given_by plan.old step.old) plan.new step.new link.new) }
    ensures turns { OnOk result (turn_by plan.old step.old reply.new ≡ record { plan = plan.new; step = step.new }) }
    ensures reply { (m : Machine) → L.is_at link.old m → OnOk result (reply.new ≡ heard_at m step.old reply.old) }
    ensures gives { (m last : Machine) (closing : ModelClosing) (rows : List Values) → GivesRows L.is_at m closing last rows plan.old step.old link.old
        → OnOk result (GivesRows L.is_at m closing last (behind_step step.old rows) plan.new step.new link.new) }
    ensures still { (m last : Machine) (closing : ModelClosing) (rows : List Values) → GivesRows L.is_at m closing last rows plan.old step.old link.old
        → LeavesOpen (Holds (L.mark link.old) m.committed) (L.chip link.old) (L.chip link.new) }
    ensures moments { (m : Machine) → L.is_at link.old m
        → LeavesOpen (IsOneOf (L.mark link.old) (m.committed ∷ (run_from m plan.old step.old).commits)) (L.chip link.old) (L.chip link.new) }
    ensures stays { OnErr result ((plan.new ≡ plan.old) × (step.new ≡ step.old)) }
    ensures comes_on { OnOk result (ComesOn plan.old step.old plan.new step.new) }
    ensures leaves { AskingLeaves L.is_live L.faults L.mark L.keeps L.goes_on result reply.new link.old link.new }
{
    match &*step {
        Step::Send { command } | Step::Row { command } => {
            ask(link, command, reply)?;
            plan.next_into(Some(reply), step);
            Ok(())
        }
        Step::ResetCard => {
            link.reset();
            plan.next_into(None, step);
            Ok(())
        }
        Step::Done { .. } => Ok(()),
    }
}

/// Carries out a plan to its end. The rows that it gives are dropped.
pub fn carry_out<L: CardLink>(
    link: &mut L,
    plan: &mut Plan,
    step: &mut Step,
    reply: &mut Reply,
) -> Result<Closing, Mute>
    requires live { IsTrue (L.is_live link.old) }
    ensures runs { (m : Machine) → L.is_at link.old m → RunsOver L.is_at L.mark L.chip m (run_of m plan.old) result link.old link.new }
    ensures ended { IfOk result (λ closing. step.new ≡ Step.Done closing) }
    ensures leaves { AskingLeaves L.is_live L.faults L.mark L.keeps L.goes_on result reply.new link.old link.new }
{
    plan.next_into(None, step);
    loop {
        if let Step::Done { closing } = &*step {
            return Ok(*closing);
        }
        follow(link, plan, step, reply)?;
    }
}

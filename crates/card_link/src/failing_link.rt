// A link that fails, for tests of what asks a card.
ghost use Rattle.std.specs.Prelude.{◌≡◌, ◌≤◌, ◌<◌, ◌+◌, ◌∷◌, ◌&&◌, not, if◌then◌else◌, IsTrue, true, false};
ghost use Rattle.eeprom.specs.Fault.{Rose};
ghost use Rattle.scql_base.specs.Words.{memory_failure};
ghost use Rattle.scql_model.specs.Machine as machine;
ghost use Rattle.scql_model.specs.Replies.{said};
ghost use Rattle.scql_model.specs.Step as stepping;
ghost use Rattle.card_link.specs.Link.{Answered, IsOneOf, LeavesOpen};

use crate::{CardLink, Outcome};
use apdu::Reply;
use scql_base::StatusWord;
use std::marker::Model;

/// A link that passes so many commands on to another one and is mute at the next, as if the card was pulled then.
#[derive(Drop)]
pub struct FailingLink<L: CardLink> {
    inner: L,
    left: u16,
    failed: bool,
}

impl<L: CardLink> Model for FailingLink<L> {
    ghost use Rattle.card_link.specs.Failing.{Failing};

    ghost Value = { Failing L };

    ghost view = { λ f. record { inner = f.inner; left = f.left; failed = f.failed } };
}

impl<L: CardLink> FailingLink<L> {
    /// A link that still passes so many commands on.
    pub fn new(inner: L, left: u16) -> FailingLink<L>
        ensures { result ≡ record { inner = inner; left = left; failed = false } }
    {
        FailingLink {
            inner,
            left,
            failed: false,
        }
    }
}

impl<L: CardLink> CardLink for FailingLink<L> {
    ghost use Rattle.std.specs.Prelude.{◌+◌, ◌&&◌, not, if◌then◌else◌};

    ghost is_at = { λ f m. L.is_at f.inner m };

    ghost is_live = { λ f. not f.failed && L.is_live f.inner };

    ghost faults = { λ f. L.faults f.inner + (if f.failed then 1 else 0) };

    ghost mark = { λ f. L.mark f.inner };

    ghost chip = { λ f. L.chip f.inner };

    ghost keeps = { λ old new. L.keeps old.inner new.inner };

    ghost goes_on = { λ old new. L.goes_on old.inner new.inner };

    fn live(&self) -> bool {
        !self.failed && self.inner.live()
    }

    // The clauses of a link, and when it is mute.
    fn exchange(&mut self, command: &[u8], reply: &mut Reply) -> Outcome
        requires { IsTrue (not self.old.failed && L.is_live self.old.inner) }
        ensures step { (m : machine.Machine) → L.is_at self.old.inner m → result ≡ Outcome.Replied
            → Answered (λ f m. L.is_at f.inner m) (stepping.step m command.now) reply.new self.new }
        ensures replied { result ≡ Outcome.Replied → IsTrue (not self.new.failed && L.is_live self.new.inner)
            × (L.faults self.new.inner + (if self.new.failed then 1 else 0) ≡ L.faults self.old.inner + (if self.old.failed then 1 else 0)) }
        ensures mute { result ≡ Outcome.Mute → (reply.new ≡ said memory_failure) × ((not self.new.failed && L.is_live self.new.inner) ≡ false) }
        ensures cause { result ≡ Outcome.Mute → Rose (L.faults self.old.inner + (if self.old.failed then 1 else 0)) (L.faults self.new.inner + (if self.new.failed then 1 else 0)) }
        ensures never_falls { L.faults self.old.inner + (if self.old.failed then 1 else 0) ≤ L.faults self.new.inner + (if self.new.failed then 1 else 0) }
        ensures mark { L.mark self.new.inner ≡ L.mark self.old.inner }
        ensures moments { (m : machine.Machine) → L.is_at self.old.inner m
            → LeavesOpen (IsOneOf (L.mark self.old.inner) (m.committed ∷ (stepping.step m command.now).commits)) (L.chip self.old.inner) (L.chip self.new.inner) }
        ensures rest { L.keeps self.old.inner self.new.inner }
        ensures goes_on { L.goes_on self.old.inner self.new.inner }
        ensures fails { self.old.left ≡ 0 → (result ≡ Outcome.Mute) × (self.new ≡ record self.old { failed = true }) }
        ensures passes { 0 < self.old.left → (self.new.left + 1 ≡ self.old.left) × (self.new.failed ≡ self.old.failed) }
    {
        if self.left == 0 {
            self.failed = true;
            reply.body.clear();
            reply.word = StatusWord::MEMORY_FAILURE;
            return Outcome::Mute;
        }
        self.left -= 1;
        self.inner.exchange(command, reply)
    }

    fn reset(&mut self) {
        self.inner.reset();
    }

    ghost marks = { λ f. L.marks f.inner };

    ghost opens = { λ f m at. L.opens f.inner m at };

    ghost keeps_same = { λ f. L.keeps_same f.inner };

    ghost keeps_then = { λ old mid new first second. L.keeps_then old.inner mid.inner new.inner first second };

    ghost goes_on_same = { λ f. L.goes_on_same f.inner };

    ghost goes_on_then = { λ old mid new first second. L.goes_on_then old.inner mid.inner new.inner first second };

    ghost valid = { λ f m at. L.valid f.inner m at };
}

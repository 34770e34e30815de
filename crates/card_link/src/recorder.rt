// A link that records how it was answered, for tests of what asks a card.
ghost use Rattle.std.specs.Prelude.{◌≡◌, ◌≤◌, [], ◌∷◌, IsTrue, false};
ghost use Rattle.eeprom.specs.Fault.{Rose};
ghost use Rattle.scql_base.specs.Words.{memory_failure};
ghost use Rattle.scql_model.specs.Machine as machine;
ghost use Rattle.scql_model.specs.Replies.{said};
ghost use Rattle.scql_model.specs.Step as stepping;
ghost use Rattle.card_link.specs.Link.{Answered, IsOneOf, LeavesOpen};
ghost use Rattle.card_link.specs.Recording.{Continues, recorded};

use crate::{CardLink, Outcome};
use apdu::Reply;
use arrayvec::ArrayVec;
use std::marker::Model;

/// A link that passes each command on to another one, and records the status words of the first `ROOM` replies.
#[derive(Drop)]
pub struct Recorder<L: CardLink, const ROOM: usize> {
    inner: L,
    words: ArrayVec<u16, ROOM>,
}

impl<L: CardLink, const ROOM: usize> Model for Recorder<L, ROOM> {
    ghost use Rattle.card_link.specs.Recording.{Recording};

    ghost Value = { Recording L };

    ghost view = { λ r. record { inner = r.inner; words = r.words.items } };
}

impl<L: CardLink, const ROOM: usize> Recorder<L, ROOM> {
    /// A link of which nothing is recorded yet.
    pub fn new(inner: L) -> Recorder<L, ROOM>
        ensures { result ≡ record { inner = inner; words = [] } }
    {
        Recorder {
            inner,
            words: ArrayVec::new(),
        }
    }

    /// The status words, in the order in which they came.
    pub fn words(&self) -> &[u16]
        ensures { result.now ≡ self.now.words }
    {
        &self.words
    }
}

impl<L: CardLink, const ROOM: usize> CardLink for Recorder<L, ROOM> {
    ghost use Rattle.card_link.specs.Recording.{Continues};
    ghost use Rattle.card_link.specs.RecordingLaws.{continues-same, continues-then};

    ghost is_at = { λ r m. L.is_at r.inner m };

    ghost is_live = { λ r. L.is_live r.inner };

    ghost faults = { λ r. L.faults r.inner };

    ghost mark = { λ r. L.mark r.inner };

    ghost chip = { λ r. L.chip r.inner };

    ghost keeps = { λ old new. L.keeps old.inner new.inner };

    ghost goes_on = { λ old new. L.goes_on old.inner new.inner × Continues old.words new.words };

    fn live(&self) -> bool {
        self.inner.live()
    }

    // The clauses of a link, and what is recorded.
    fn exchange(&mut self, command: &[u8], reply: &mut Reply) -> Outcome
        requires { IsTrue (L.is_live self.old.inner) }
        ensures step { (m : machine.Machine) → L.is_at self.old.inner m → result ≡ Outcome.Replied
            → Answered (λ r m. L.is_at r.inner m) (stepping.step m command.now) reply.new self.new }
        ensures replied { result ≡ Outcome.Replied → IsTrue (L.is_live self.new.inner) × (L.faults self.new.inner ≡ L.faults self.old.inner) }
        ensures mute { result ≡ Outcome.Mute → (reply.new ≡ said memory_failure) × (L.is_live self.new.inner ≡ false) }
        ensures cause { result ≡ Outcome.Mute → Rose (L.faults self.old.inner) (L.faults self.new.inner) }
        ensures never_falls { L.faults self.old.inner ≤ L.faults self.new.inner }
        ensures mark { L.mark self.new.inner ≡ L.mark self.old.inner }
        ensures moments { (m : machine.Machine) → L.is_at self.old.inner m
            → LeavesOpen (IsOneOf (L.mark self.old.inner) (m.committed ∷ (stepping.step m command.now).commits)) (L.chip self.old.inner) (L.chip self.new.inner) }
        ensures rest { L.keeps self.old.inner self.new.inner }
        ensures goes_on { L.goes_on self.old.inner self.new.inner × Continues self.old.words self.new.words }
        ensures recorded { self.new.words ≡ recorded ROOM self.old.words result reply.new.word.word }
    {
        let outcome = self.inner.exchange(command, reply);
        note(&mut self.words, outcome, reply);
        outcome
    }

    fn reset(&mut self) {
        self.inner.reset();
    }

    ghost marks = { λ r. L.marks r.inner };

    ghost opens = { λ r m at. L.opens r.inner m at };

    ghost keeps_same = { λ r. L.keeps_same r.inner };

    ghost keeps_then = { λ old mid new first second. L.keeps_then old.inner mid.inner new.inner first second };

    ghost goes_on_same = { λ r. (L.goes_on_same r.inner, continues-same r.words) };

    ghost goes_on_then = { λ old mid new first second. (
      L.goes_on_then old.inner mid.inner new.inner first.0 second.0,
      continues-then old.words mid.words new.words first.1 second.1,
    ) };

    ghost valid = { λ r m at. L.valid r.inner m at };
}

// Records a reply, if there was one and there is room.
fn note<const ROOM: usize>(words: &mut ArrayVec<u16, ROOM>, outcome: Outcome, reply: &Reply)
    ensures recorded { words.new.items ≡ recorded ROOM words.old.items outcome reply.now.word.word }
    ensures continues { Continues words.old.items words.new.items }
{
    if outcome == Outcome::Replied && !words.is_full() {
        words.push(reply.word.word);
    }
}

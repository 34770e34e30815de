// A card and its bench in one object, which is asked as a link and prints as an outlet.
ghost use Rattle.std.specs.Prelude.{◌≡◌};
ghost use Rattle.card.specs.Card.{IsReady};

use crate::{Card, Outcome};
use apdu::Reply;
use card_link::{CardLink, Desk};
use eeprom::{Bench, Outlet, SinkFault};
use std::marker::Model;

/// A card over its bench. While it is live it is ready.
#[derive(Drop)]
pub struct LiveCard<'a, B: Bench> {
    card: Card,
    bench: &'a mut B,
}

impl<'a, B: Bench> Model for LiveCard<'a, B> {
    ghost use Rattle.std.specs.Prelude.{IsTrue};
    ghost use Rattle.card.specs.Card.{IsReady};
    ghost use Rattle.card.specs.LiveCard.{OnBench};

    ghost Value = { OnBench B };

    ghost view = { λ l. record { card = l.card; bench = l.bench.now; name = l.bench.ghost_name } };

    ghost invariant = { λ l. IsTrue l.card.live → IsReady l.card (B.chip l.bench.now) };
}

impl<'a, B: Bench> LiveCard<'a, B> {
    pub fn new(card: Card, bench: &'a mut B) -> LiveCard<'a, B>
        requires { IsReady card (B.chip bench.old) }
        ensures { result ≡ record { card = card; bench = bench.old; name = bench.entry.ghost_name } }
    {
        LiveCard { card, bench }
    }

    /// The bench, as calls left it.
    pub fn into_bench(self) -> &'a mut B
        ensures name { result.ghost_name ≡ self.entry.name }
        ensures bench { result.now ≡ self.entry.bench }
    {
        let LiveCard { card: _, bench } = self;
        bench
    }
}

impl<'a, B: Bench> CardLink for LiveCard<'a, B> {
    ghost use Rattle.std.proofs.Common.{◌∙◌, refl};
    ghost use Rattle.card.specs.LiveCard.{IsReadyAt, KeepsStill, LastsOn};
    ghost use Rattle.card.specs.LiveCardLaws.{lasts-same, lasts-then, opens-at, over-at};

    ghost is_at = { λ l m. IsReadyAt l.card (B.chip l.bench) m };

    ghost is_live = { λ l. l.card.live };

    ghost faults = { λ l. B.faults l.bench };

    ghost mark = { λ l. (B.chip l.bench).still.mark };

    ghost chip = { λ l. B.chip l.bench };

    ghost keeps = { KeepsStill B.chip };

    ghost goes_on = { LastsOn B.chip };

    fn live(&self) -> bool {
        self.card.live()
    }

    fn exchange(&mut self, command: &[u8], reply: &mut Reply) -> Outcome {
        self.card.answer(self.bench, command, reply)
    }

    fn reset(&mut self) {
        self.card.reset();
    }

    ghost marks = { λ l. refl };

    ghost opens = { λ l m at. opens-at l.card (B.chip l.bench) m at };

    ghost keeps_same = { λ l. refl };

    ghost keeps_then = { λ old mid new first second. second ∙ first };

    ghost goes_on_same = { lasts-same B.chip };

    ghost goes_on_then = { lasts-then B.chip };

    ghost valid = { λ l m at. over-at m at.at.valid };
}

impl<'a, B: Bench> Outlet for LiveCard<'a, B> {
    ghost use Rattle.card.specs.LiveCard.{LeavesCard};

    ghost given = { λ l. B.given l.bench };

    ghost sink_faults = { λ l. B.sink_faults l.bench };

    ghost leaves = { LeavesCard B.leaves };

    fn give(&mut self, octets: &[u8]) -> Result<(), SinkFault> {
        self.bench.give(octets)
    }
}

impl<'a, B: Bench> Desk for LiveCard<'a, B> {
    ghost use Rattle.card.specs.LiveCardLaws.{gives-on, lasts-given, still-kept};

    ghost kept = { λ old new same. still-kept (B.chip old.bench).still (B.chip new.bench).still same (B.output old.bench) (B.output new.bench) };

    ghost marked = { λ d told. B.mark d.bench };

    ghost gives = { λ old new left. gives-on B.chip B.faults old new left.card (B.clocked old.bench) (B.gives old.bench new.bench left.bench).0 (B.gives old.bench new.bench left.bench).1 };

    ghost goes_on_given = { λ old new left. lasts-given B.chip old new left.name left.card (B.clocked old.bench) (B.gives old.bench new.bench left.bench).0 };
}

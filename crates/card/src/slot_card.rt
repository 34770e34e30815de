// A card that owns its bench, asked as a link.
ghost use Rattle.std.specs.Prelude.{◌≡◌};
ghost use Rattle.card.specs.Card.{IsReady};

use crate::{Card, Outcome};
use apdu::Reply;
use card_link::CardLink;
use eeprom::Eeprom;
use std::marker::Model;

/// A card and the bench that it answers over, in one object that borrows nothing. While it is live it is ready.
#[derive(Drop)]
pub struct SlotCard<B: Eeprom + Drop> {
    card: Card,
    bench: B,
}

impl<B: Eeprom + Drop> Model for SlotCard<B> {
    ghost use Rattle.std.specs.Prelude.{IsTrue};
    ghost use Rattle.card.specs.Card.{IsReady};
    ghost use Rattle.card.specs.SlotCard.{InSlot};

    ghost Value = { InSlot B };

    ghost view = { λ l. record { card = l.card; bench = l.bench } };

    ghost invariant = { λ l. IsTrue l.card.live → IsReady l.card (B.chip l.bench) };
}

impl<B: Eeprom + Drop> SlotCard<B> {
    /// A card over the bench that it was opened on.
    pub fn new(card: Card, bench: B) -> SlotCard<B>
        requires { IsReady card (B.chip bench) }
        ensures { result ≡ record { card = card; bench = bench } }
    {
        SlotCard { card, bench }
    }
}

impl<B: Eeprom + Drop> CardLink for SlotCard<B> {
    ghost use Rattle.std.proofs.Common.{◌≡◌, ◌∙◌, refl};
    ghost use Rattle.card.specs.LiveCard.{IsReadyAt, Lasts};
    ghost use Rattle.card.specs.LiveCardLaws.{lasts-both, lasts-itself, opens-at, over-at};

    ghost is_at = { λ l m. IsReadyAt l.card (B.chip l.bench) m };

    ghost is_live = { λ l. l.card.live };

    ghost faults = { λ l. B.faults l.bench };

    ghost mark = { λ l. (B.chip l.bench).still.mark };

    ghost chip = { λ l. B.chip l.bench };

    ghost keeps = { λ old new. (B.chip new.bench).still ≡ (B.chip old.bench).still };

    ghost goes_on = { λ old new. Lasts old.card new.card (B.chip old.bench) (B.chip new.bench) };

    fn live(&self) -> bool {
        self.card.live()
    }

    fn exchange(&mut self, command: &[u8], reply: &mut Reply) -> Outcome {
        self.card.answer(&mut self.bench, command, reply)
    }

    fn reset(&mut self) {
        self.card.reset();
    }

    ghost marks = { λ l. refl };

    ghost opens = { λ l m at. opens-at l.card (B.chip l.bench) m at };

    ghost keeps_same = { λ l. refl };

    ghost keeps_then = { λ old mid new first second. second ∙ first };

    ghost goes_on_same = { λ l. lasts-itself l.card (B.chip l.bench) };

    ghost goes_on_then = { λ old mid new first second. lasts-both old.card mid.card new.card (B.chip old.bench) (B.chip mid.bench) (B.chip new.bench) first second };

    ghost valid = { λ l m at. over-at m at.at.valid };
}

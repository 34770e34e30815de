// A link and the outlet of what is printed, lent for a line.
ghost use Rattle.std.specs.Prelude.{◌≡◌};

use apdu::Reply;
use card_link::{CardLink, Desk, Outcome};
use eeprom::{Outlet, SinkFault};

/// A link that is lent with the outlet of what is printed. It tells the link's machine, but no moments.
#[derive(Drop)]
pub(crate) struct RackDesk<'a, L: CardLink, O: Outlet> {
    pub(crate) link: &'a mut L,
    pub(crate) outlet: &'a mut O,
}

impl<'a, L: CardLink, O: Outlet> CardLink for RackDesk<'a, L, O> {
    ghost use Rattle.std.proofs.Common.{◌≡◌, ◌∙◌, refl};
    ghost use Rattle.reader_rack.specs.Desks.{untold};

    ghost is_at = { λ d m. L.is_at d.link.now m };

    ghost is_live = { λ d. L.is_live d.link.now };

    ghost faults = { λ d. L.faults d.link.now };

    ghost mark = { λ d. 0 };

    ghost chip = { λ d. untold };

    ghost keeps = { λ old new. new.outlet ≡ old.outlet };

    ghost goes_on = { λ old new. (new.link.ghost_name ≡ old.link.ghost_name) × (new.outlet.ghost_name ≡ old.outlet.ghost_name) };

    fn live(&self) -> bool {
        self.link.live()
    }

    fn exchange(&mut self, command: &[u8], reply: &mut Reply) -> Outcome {
        self.link.exchange(command, reply)
    }

    fn reset(&mut self) {
        self.link.reset();
    }

    ghost marks = { λ d. refl };

    ghost opens = { λ d m at. tt };

    ghost keeps_same = { λ d. refl };

    ghost keeps_then = { λ old mid new first second. second ∙ first };

    ghost goes_on_same = { λ d. (refl, refl) };

    ghost goes_on_then = { λ old mid new first second. (second.0 ∙ first.0, second.1 ∙ first.1) };

    ghost valid = { λ d m at. L.valid d.link.now m at };
}

impl<'a, L: CardLink, O: Outlet> Outlet for RackDesk<'a, L, O> {
    ghost given = { λ d. O.given d.outlet.now };

    ghost sink_faults = { λ d. O.sink_faults d.outlet.now };

    ghost leaves = { λ old new. (new.link ≡ old.link) × (new.outlet.ghost_name ≡ old.outlet.ghost_name) };

    fn give(&mut self, octets: &[u8]) -> Result<(), SinkFault> {
        self.outlet.give(octets)
    }
}

impl<'a, L: CardLink, O: Outlet> Desk for RackDesk<'a, L, O> {
    ghost use Rattle.std.proofs.Common.{ap};
    ghost use Rattle.std.proofs.lemmas.Bool.{false≢true};
    ghost use Rattle.reader_rack.specs.DeskLaws.{gives-untold};

    ghost kept = { λ old new same. (ap (λ o. O.given o.now) same, ap (λ o. O.sink_faults o.now) same) };

    ghost marked = { λ d told. absurd (false≢true told) };

    ghost gives = { λ old new left. gives-untold (λ d. d.link.now) L.is_at L.is_live L.faults old new (ap (λ l. l.now) left.0) };

    ghost goes_on_given = { λ old new left. (ap (λ l. l.ghost_name) left.0, left.1) };
}

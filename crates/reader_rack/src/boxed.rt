// A link of any kind, in a box.
ghost use Rattle.std.specs.Prelude.{◌≡◌};
ghost use Rattle.scql_model.specs.Machine as machine;

use apdu::Reply;
use card_link::{CardLink, Outcome};

/// A link of any kind: it is asked as the link in the box is.
#[derive(Drop)]
pub struct BoxedLink {
    link: Box<dyn CardLink>,
}

impl BoxedLink {
    /// The link that is in the box.
    pub fn new(link: Box<dyn CardLink>) -> BoxedLink
        ensures at { (m : machine.Machine) → is_at link m → ⟦<BoxedLink as CardLink>⟧.is_at result m }
        ensures live { ⟦<BoxedLink as CardLink>⟧.is_live result ≡ is_live link }
        ensures faults { ⟦<BoxedLink as CardLink>⟧.faults result ≡ faults link }
        ensures chip { ⟦<BoxedLink as CardLink>⟧.chip result ≡ chip link }
    {
        BoxedLink { link }
    }
}

impl CardLink for BoxedLink {
    ghost use Rattle.std.proofs.Common.{refl};
    ghost use Rattle.reader_rack.specs.Boxes.{IsAtOver};

    ghost is_at = { λ b m. IsAtOver ((CardLink-box b.link).is_at b.link.value) ((CardLink-box b.link).chip b.link.value) m };

    ghost is_live = { λ b. (CardLink-box b.link).is_live b.link.value };

    ghost faults = { λ b. (CardLink-box b.link).faults b.link.value };

    ghost mark = { λ b. ((CardLink-box b.link).chip b.link.value).still.mark };

    ghost chip = { λ b. (CardLink-box b.link).chip b.link.value };

    ghost keeps = { λ old new. Unit {0} };

    ghost goes_on = { λ old new. Unit {0} };

    fn live(&self) -> bool {
        self.link.live()
    }

    fn exchange(&mut self, command: &[u8], reply: &mut Reply) -> Outcome {
        self.link.exchange(command, reply)
    }

    fn reset(&mut self) {
        self.link.reset();
    }

    ghost marks = { λ b. refl };

    ghost opens = { λ b m at. at.opens };

    ghost keeps_same = { λ b. tt };

    ghost keeps_then = { λ old mid new first second. tt };

    ghost goes_on_same = { λ b. tt };

    ghost goes_on_then = { λ old mid new first second. tt };

    ghost valid = { λ b m at. at.over };
}

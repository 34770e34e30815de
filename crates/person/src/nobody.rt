// Nobody.
use crate::{Person, Presence};

/// Nobody, to whom nothing is shown.
#[derive(Drop, Clone, Copy, Debug)]
pub struct Nobody;

impl Person for Nobody {
    ghost use Rattle.std.specs.Prelude.{Some, true, []};

    ghost shown = { λ _. Some [] };

    ghost lost = { λ _. true };

    fn show(&mut self, text: &[u8]) {
        let _ = text;
    }

    fn presence(&self) -> Presence {
        Presence::Away
    }

    fn show_title(&mut self) {}
}

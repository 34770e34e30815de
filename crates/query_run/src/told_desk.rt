// A desk of which it is told what went out.
ghost use Rattle.std.specs.Prelude.{◌≡◌, IfSome, length};

use card::LiveCard;
use card_link::Desk;
use eeprom::Bench;

/// A desk whose chip tells what was given.
pub trait ToldDesk: Desk {
    /// What the chip tells is what was given.
    ghost output: { (d : Self) → (Self.chip d).still.given ≡ Self.given d };

    /// The mark is the length of what was given, where that is told.
    ghost counted: { (d : Self) → IfSome (Self.given d) (λ given. Self.mark d ≡ length given) };
}

impl<'a, B: Bench> ToldDesk for LiveCard<'a, B> {
    ghost output = { λ l. (B.output l.bench).0 };

    ghost counted = { λ l. B.mark l.bench };
}

// A logical channel (ISO/IEC 7816-4).
ghost use Rattle.std.specs.Prelude.{◌<◌};

/// A logical channel, by its number. A card has four.
#[derive(Clone, Copy)]
pub(crate) struct Channel {
    pub number: u8,
    pub ghost few: { number < 4 },
}

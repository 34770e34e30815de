// Why a card isn't asked to the end.

/// The card failed: it answers no more.
#[derive(Clone, Copy, PartialEq, Eq, Debug)]
pub struct Mute {}

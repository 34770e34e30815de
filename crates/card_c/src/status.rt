// How a call ended. The numbers are those of include/huwapire.h.

/// It did all that it is for.
pub const DONE: u32 = 0;
/// The handle holds no card, or for a new one it holds one already.
pub const WRONG_HANDLE: u32 = 1;
/// What the caller lent is too short for the reply, the image or the write.
pub const TOO_SHORT: u32 = 2;
/// There was no memory.
pub const NO_MEMORY: u32 = 3;
/// The image isn't one of a card.
pub const NOT_A_CARD: u32 = 4;
/// A card has 16 to 2,048 cells.
pub const WRONG_CELLS: u32 = 5;
/// The card doesn't answer any more, since a command before found no memory for its log.
pub const MUTE: u32 = 6;
/// There is no write of that number.
pub const NO_WRITE: u32 = 7;
/// The handle's card has no terminal.
pub const NO_TERMINAL: u32 = 8;

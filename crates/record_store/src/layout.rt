// What an image of format 2 begins with.

/// What each image with a store begins with.
pub const MAGIC: [u8; 4] = *b"SCQL";

/// The format, in the octet behind the magic.
pub const FORMAT: u8 = 2;

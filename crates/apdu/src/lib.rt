//! Commands and replies, to octets and back (ISO/IEC 7816-4), and the lines in which they are written.
#![tactic(auto)]

mod command;
mod field;
mod fields;
mod line;
mod lists;
mod parts;
mod reading;
mod reply;
mod reply_line;
mod table;
mod tail;
mod writing;

pub use command::{CommandApdu, field_fits};
pub use line::{LONGEST_COMMAND, LineContent, read_line};
pub use parts::{comes_in_parts, goes_on};
pub use reading::{Apdu, Refusal};
pub use reply::Reply;
pub use reply_line::{LONGEST_REPLY_LINE, write_reply};
pub use writing::CommandOctets;

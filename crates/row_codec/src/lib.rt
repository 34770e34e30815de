//! Rows of tables in octets and back, and the parts that records of all kinds have.
#![tactic(auto)]

mod parts;
mod row;

pub use parts::{number_and_rest, put, put_number};
pub use row::{decode, decode_into, encode};

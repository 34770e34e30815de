//! Commands that come in parts (command chaining), and answers that go in parts (GET RESPONSE), of ISO/IEC 7816-4.
#![tactic(auto)]

mod chain;
mod chains;
mod le;
mod pending;

pub use chains::{Chains, Taken};
pub use le::Le;
pub use pending::Pending;

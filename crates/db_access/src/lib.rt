//! Who acts on a card, and what users may do: users are presented, made and deleted, and privileges are given and taken.
#![tactic(auto)]

mod creating;
mod deleting;
mod granting;
mod pairs;
mod presenting;
mod revoking;
mod verifying;

pub use creating::create_user;
pub use deleting::delete_user;
pub use granting::grant;
pub use presenting::{Presented, present};
pub use revoking::revoke;
pub use verifying::verify;

#[cfg(test)]
mod tests;

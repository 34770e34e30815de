//! A table copied from one card to another, over any two links: all of it, or nothing.
#![tactic(auto)]

mod copy_end;
mod copying;
mod dest;
mod fetching;
mod progress;
mod source;
#[cfg(test)]
mod tests;

pub use copy_end::CopyEnd;
pub use copying::copy;

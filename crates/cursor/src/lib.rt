//! A cursor's moves over the rows of any feed.
#![tactic(auto)]

mod feed;
mod fetching;
mod moving;

pub use feed::RowFeed;
pub use fetching::{fetch, fetch_step};
pub use moving::{first, step};

#[cfg(test)]
mod tests;

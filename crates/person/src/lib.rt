//! A person at a screen: what is shown there beside a program's output, lines of counts, how far a run has come, and a prompt where lines are typed.
#![tactic(auto)]

mod counts;
mod nobody;
mod person;
mod presence;
mod progress;
mod prompted;
mod watcher;

pub use counts::{put, put_count};
pub use nobody::Nobody;
pub use person::Person;
pub use presence::Presence;
pub use progress::{LONGEST_WORDS, Progress};
pub use prompted::Prompted;
pub use watcher::Watcher;

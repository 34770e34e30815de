// How a command was answered.
pub use card_link::Outcome;

//! The reading commands on a plain database: what its objects show, tables and views as well as dictionaries, and a cursor's moves.
#![tactic(auto)]

mod commands;
mod dictionary;
mod found;
mod moving;
mod names;
mod readable;
mod reading;
mod texts;
mod told;

pub use commands::ReadingCommand;
pub use moving::read;
pub use reading::Reading;

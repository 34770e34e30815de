//! Operations that read: a cursor is declared, opened, moved, and gives rows.
#![tactic(auto)]

mod advancing;
mod choosing;
mod chosen;
mod columns;
mod declaring;
mod feed;
mod finding;
mod going;
mod motion;
mod reader;
mod rows;
mod scan;
mod telling;

pub use advancing::advance;
pub use choosing::resolve;
pub use declaring::declare;
pub use finding::find_selected;
pub use motion::Motion;
pub use reader::Reader;
pub use rows::row_in;
pub use scan::{Choice, RowRoom, Scan, is_table_or_view};

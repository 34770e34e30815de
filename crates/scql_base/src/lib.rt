//! The values of the card: names, rows, parameters, records, commands and status words, which code and definitions share.
#![tactic(auto)]

mod blank;
mod changes;
mod codes;
mod condition;
mod conditions;
mod copied;
mod counter;
mod cursor;
mod list_full;
mod name;
mod name_list;
mod octets;
mod operation;
mod packed_changes;
mod params;
mod privileges;
mod records;
mod row;
mod row_refusal;
mod words;

pub use changes::{Change, Changes};
pub use condition::Condition;
pub use conditions::Conditions;
pub use copied::Copied;
pub use counter::Counter;
pub use cursor::{Cursor, Place, PresentedUser};
pub use list_full::ListFull;
pub use name::Name;
pub use name_list::NameList;
pub use octets::Octets;
pub use operation::{Command, Line, Operation, OperationKind, Takes};
pub use packed_changes::{ChangeRun, PackedChanges};
pub use params::Params;
pub use privileges::Privileges;
pub use records::{Grant, Object, ObjectKind, RowRecord, User};
pub use row::Row;
pub use row_refusal::RowRefusal;
pub use words::{Actor, Comparison, Profile, StatusWord, Subject};

//! A card: keeps a session for each channel, and answers as the table machine over a store.
#![tactic(auto)]

mod apart;
mod card;
mod changing;
mod channel;
mod counting;
mod engine;
mod found;
mod founded;
mod kept_record;
mod kept_records;
mod live_card;
mod opening;
mod outcome;
mod reading;
mod reply;
mod rooms;
mod session;
mod slot_card;
mod slot_record;
mod sorted_records;
mod spelled_record;
mod validity;

pub use card::Card;
pub use counting::Counts;
pub use live_card::LiveCard;
pub use outcome::Outcome;
pub use record_store::{FormatRefusal, OpenRefusal};
pub use slot_card::SlotCard;

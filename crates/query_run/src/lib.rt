//! A query over several objects of a card: their rows are fetched, joined and put in order, and then printed.
#![tactic(auto)]

mod answer;
mod answering;
mod fetching;
mod finding;
mod printing;
mod progress;
mod queries;
mod responding;
mod run;
mod status;
mod told_desk;
mod unfetched;
mod user_run;

pub use queries::Queries;
pub use run::answer_queries;
pub use status::QueryStatus;
pub use told_desk::ToldDesk;
pub use unfetched::Unfetched;
pub use user_run::run_query;

// The fetching of the source's rows.
use apdu::Reply;
use planner::{Plan, Step};

/// The rows of the source under way: the plan of their SELECT, its next step, and the last reply.
#[derive(Drop)]
pub struct Fetching {
    pub plan: Plan,
    pub step: Step,
    pub reply: Reply,
}

// A condition at the place of its column.
use scql_base::{Comparison, Octets};
use std::default::MadeWith;

/// A condition on the value at a place of a row.
#[derive(Drop)]
pub struct Placed {
    pub place: usize,
    pub comparison: Comparison,
    pub value: Octets<200>,
}

/// Makes a condition for a place of a list that isn't used yet. Nobody sees it.
#[derive(Clone, Copy)]
pub(crate) struct Blank;

impl MadeWith<Blank> for Placed {
    fn made_with(_blank: Blank) -> Placed {
        Placed {
            place: 0,
            comparison: Comparison::Equal,
            value: Octets::of(b"").unwrap(),
        }
    }
}

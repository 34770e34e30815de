// What fills the places of a list that aren't used yet.
use crate::changes::Change;
use crate::{Comparison, Condition, Name, Octets};
use std::default::MadeWith;

/// Makes a value for a place that isn't used. Nobody sees that value.
#[derive(Clone, Copy)]
pub(crate) struct Blank;

impl MadeWith<Blank> for Name {
    fn made_with(_blank: Blank) -> Name {
        Name::blank()
    }
}

impl MadeWith<Blank> for Octets<200> {
    fn made_with(_blank: Blank) -> Octets<200> {
        Octets::empty()
    }
}

impl MadeWith<Blank> for Condition {
    fn made_with(_blank: Blank) -> Condition {
        Condition {
            column: Name::blank(),
            comparison: Comparison::Equal,
            value: Octets::empty(),
        }
    }
}

impl MadeWith<Blank> for Change {
    fn made_with(_blank: Blank) -> Change {
        Change {
            pair: (Name::blank(), Octets::empty()),
        }
    }
}

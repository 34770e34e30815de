// What a row is held against.
use crate::{Comparison, Copied, Name, Octets};

/// A condition on one column: the column's value, compared with the condition's.
#[derive(Drop)]
pub struct Condition {
    pub column: Name,
    pub comparison: Comparison,
    pub value: Octets<200>,
}

impl Copied for Condition {
    fn copy(&self) -> Condition {
        Condition {
            column: self.column.copy(),
            comparison: self.comparison,
            value: self.value.copy(),
        }
    }
}

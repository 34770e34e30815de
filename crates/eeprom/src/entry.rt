// An entry of the journal of an image.

/// What a commit makes of a slot: the cell at which its chain begins, or 65,535 where it is to be empty.
#[derive(Clone, Copy, Default, PartialEq, Eq, Debug)]
pub struct Entry {
    pub slot: u16,
    pub first: u16,
}

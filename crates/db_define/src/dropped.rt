// What a command drops.

/// Tables are dropped by DROP TABLE, and all other objects by DROP VIEW.
#[derive(Clone, Copy)]
pub(crate) enum Dropped {
    Table,
    View,
}

/// An object that is dropped: where its record stands, and its stamp.
#[derive(Clone, Copy)]
pub(crate) struct ToDrop {
    pub(crate) slot: u16,
    pub(crate) stamp: u32,
}

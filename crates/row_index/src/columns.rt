// What is known of the row of each slot of a store.
ghost use Rattle.std.specs.Prelude.{◌≡◌, slice_get};
ghost use Rattle.row_index.specs.SideRows.{place_at, places_at};

use crate::RowPlace;

/// Of each slot the stamp of its row, and that of the row's table. Of a slot without a row they may be any.
#[derive(Clone, Copy)]
pub(crate) struct Columns<'a> {
    pub(crate) stamps: &'a [u32],
    pub(crate) tables: &'a [u32],
}

impl Columns<'_> {
    // Where the row of a slot stands.
    pub(crate) fn place(&self, slot: u16) -> RowPlace
        ensures { result ≡ place_at self.now.stamps.now self.now.tables.now slot }
    {
        let at = usize::from(slot);
        RowPlace {
            stamp: self.stamps.get(at).copied().unwrap_or(0),
            table: self.tables.get(at).copied().unwrap_or(0),
            slot,
        }
    }

    // Where the row of the slot stands that is at a place among some.
    pub(crate) fn place_among(&self, slots: &[u16], at: usize) -> Option<RowPlace>
        ensures { result ≡ slice_get (places_at self.now.stamps.now self.now.tables.now slots.now) at }
    {
        let slot = *slots.get(at)?;
        Some(self.place(slot))
    }
}

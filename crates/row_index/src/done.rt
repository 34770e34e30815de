// What a transaction did to the rows so far.
ghost use Rattle.std.specs.Prelude.{◌≡◌};
ghost use Rattle.row_index.specs.SideRows.{SideRows};
ghost use Rattle.row_index.specs.Index.{LeadsTo};
ghost use Rattle.row_index.specs.declared.done.Done.TheVariants.{Nothing};

/// So much is remembered that the end of a transaction of one row doesn't copy all of them.
#[derive(Clone, Copy)]
pub(crate) enum Done {
    Nothing,
    /// The row of a slot was put at a place in order.
    Added { at: usize, slot: u16 },
    /// It was taken out there.
    Removed { at: usize, slot: u16 },
    Much,
}

impl Done {
    // With one more that was done.
    pub(crate) fn and(self, next: Done) -> Done
        ensures both { (first second third : SideRows) → LeadsTo self first second → LeadsTo next second third → LeadsTo result first third }
        ensures first { self ≡ Nothing → result ≡ next }
    {
        match self {
            Done::Nothing => next,
            _ => Done::Much,
        }
    }

    // What undoes it.
    pub(crate) fn undoing(self) -> Done
        ensures back { (from to : SideRows) → LeadsTo self from to → LeadsTo result to from }
    {
        match self {
            Done::Nothing => Done::Nothing,
            Done::Added { at, slot } => Done::Removed { at, slot },
            Done::Removed { at, slot } => Done::Added { at, slot },
            Done::Much => Done::Much,
        }
    }
}

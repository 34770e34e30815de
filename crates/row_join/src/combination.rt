// A row of each object, by their places.
ghost use Rattle.std.specs.Prelude.{◌≡◌, ◌<◌, slice_set};

/// The places of one row of each object, in the objects' order. A place of no object is 0.
#[derive(Clone, Copy, Debug, Drop)]
pub struct Combination {
    pub places: [usize; 3],
}

impl Combination {
    /// How many objects may be joined.
    pub const MOST_OBJECTS: usize = 3;

    // The same rows, and this one of this object.
    pub(crate) fn with(self, object: usize, place: usize) -> Combination
        requires { object < 3 }
        ensures { result.places ≡ slice_set self.places object place }
    {
        let mut places = self.places;
        places[object] = place;
        Combination { places }
    }
}

// Values that are copied by hand, since their lists are too large to be copied unasked.
ghost use Rattle.std.specs.Prelude.{◌≡◌};

/// A value that can be had once more.
pub trait Copied: Drop {
    /// The same value once more.
    fn copy(&self) -> Self
        ensures { result ≡ self.now };
}

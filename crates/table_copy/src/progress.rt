// What a person is shown of how far a copy has come.
use person::Progress;

/// How many rows were copied so far.
pub(crate) const COPIED: Progress = Progress {
    words: b"copied ",
    each: 16,
};

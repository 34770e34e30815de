// What a person is shown of how far rows are fetched.
use person::Progress;

/// How many rows of an object were fetched so far.
pub(crate) const FETCHED: Progress = Progress {
    words: b"fetched ",
    each: 16,
};

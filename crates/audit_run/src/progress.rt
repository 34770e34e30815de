// What a person is shown of how far an audit has come.
use person::Progress;

/// How many lines of the transcript are gone through.
pub(crate) const PASSED: Progress = Progress {
    words: b"line ",
    each: 4096,
};

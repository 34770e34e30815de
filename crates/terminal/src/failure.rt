// What ends a line before its text is whole.

/// What ends a line before its text is whole.
#[derive(Clone, Copy, PartialEq, Eq, Debug)]
pub(crate) enum Failure {
    /// The card failed: it answers no more.
    Card,
    /// The outlet failed.
    Outlet,
}

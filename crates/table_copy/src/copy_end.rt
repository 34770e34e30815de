// How a copy ends.
use scql_base::StatusWord;

/// How a copy ends.
#[derive(Clone, Copy, PartialEq, Eq, Debug)]
pub enum CopyEnd {
    /// So many rows were fetched and added, and all of it is committed.
    Copied { rows: u32 },
    /// The source refused a command with this word, or gave what is no row (6A80).
    SourceRefused { word: StatusWord },
    /// The destination refused a command with this word.
    DestRefused { word: StatusWord },
    /// The source failed: it answers no more.
    SourceMute,
    /// The destination failed: it answers no more.
    DestMute,
}

// What a session tells a person of.
use crate::{Cells, Message, Why};
use taken_line::TakenLine;

/// What a session tells a person of. A line is none where it has more octets than a line may have.
#[derive(Drop)]
pub enum Occasion<'a> {
    /// The start, over a card with these cells, or with none that are told.
    Start {
        cells: Option<Cells>,
    },
    /// A line that comes, before it is carried out.
    Line {
        line: Option<TakenLine<'a>>,
    },
    /// What came of a line, behind its closing text: why it wasn't carried out, or, where that isn't told, what goes with one that was.
    Outcome {
        line: Option<TakenLine<'a>>,
        why: Option<Why>,
        cells: Option<Cells>,
    },
    /// Something that is of no line.
    Message {
        message: &'a Message,
    },
    /// The end, of all lines of the input or of fewer.
    End {
        whole: bool,
    },
}

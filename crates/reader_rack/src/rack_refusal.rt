// Why a line was refused at a rack.
use terminal::Refusal;

/// Why a line was refused at a rack.
#[derive(Clone, Copy, PartialEq, Eq, Debug)]
pub enum RackRefusal {
    /// As a line at a terminal is.
    Line { why: Refusal },
    /// The reader that it is for holds no card that answers.
    NoCard,
}

// Why a line wasn't carried out, as a person is told.
use guide::Why;
use reader_rack::{RackEnd, RackRefusal};
use terminal::Refusal;

/// Why a line was refused that ended so, if it was.
pub(crate) fn why_of(end: RackEnd) -> Option<Why> {
    match end {
        RackEnd::Refused {
            why: RackRefusal::Line { why },
        } => Some(why_of_line(why)),
        RackEnd::Refused {
            why: RackRefusal::NoCard,
        } => Some(Why::NoCard),
        _ => None,
    }
}

fn why_of_line(refusal: Refusal) -> Why {
    match refusal {
        Refusal::Word { word } => Why::Word { word },
        Refusal::Fault { fault } => Why::Fault { fault },
        Refusal::TooLong => Why::TooLong,
    }
}

// A line as far as it has come in.
ghost use Rattle.std.specs.Prelude.{◌≡◌, ◌++◌, Some, [], option_map};
ghost use Rattle.scql_model.specs.Lines.{taken_line};
ghost use Rattle.line_input.specs.Cutting.{is_empty_line};
ghost use Rattle.line_input.specs.Line.{line_octets};

use arrayvec::ArrayVec;
use taken_line::{LONGEST_LINE, TakenLine};

/// So many octets say that a line is too long.
const TOO_LONG: usize = LONGEST_LINE + 1;

/// A line that has begun: its octets, as far as they have come in. One of more than 1,000 octets is too long, and keeps the first ones.
#[derive(Drop)]
pub struct Line {
    octets: ArrayVec<u8, TOO_LONG>,
}

impl Line {
    /// A line of which nothing has come in.
    pub fn new() -> Line
        ensures { line_octets result ≡ Some [] }
    {
        Line {
            octets: ArrayVec::new(),
        }
    }

    /// Whether nothing of it has come in.
    pub fn is_empty(&self) -> bool
        ensures { result ≡ is_empty_line (line_octets self.now) }
    {
        self.octets.is_empty()
    }

    /// The line as it is taken, or none where it is too long.
    pub fn taken(&self) -> Option<TakenLine<'_>>
        ensures { option_map (λ line. line.octets.now) result ≡ line_octets self.now }
    {
        TakenLine::of(&self.octets)
    }

    // Puts octets behind the line, as far as it has room.
    pub(crate) fn extend(&mut self, octets: &[u8])
        ensures { line_octets self.new ≡ taken_line (self.old.octets.items ++ octets.now) }
    {
        let room = self.octets.remaining_capacity();
        let fits = self
            .octets
            .try_extend_from_slice(&octets[..octets.len().min(room)])
            .is_ok();
        prove!(fits);
    }

    // Begins a new line.
    pub(crate) fn clear(&mut self)
        ensures { line_octets self.new ≡ Some [] }
    {
        self.octets.clear();
    }
}

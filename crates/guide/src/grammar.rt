// What may stand at a place of a line is asked of the grammar itself.
ghost use Rattle.std.specs.Prelude.{◌≡◌, ℕ, List, Option};
ghost use Rattle.guide.specs.Standing as standing;

use arrayvec::ArrayVec;
use taken_line::{LONGEST_LINE, TakenLine};

/// A grammar of lines.
pub trait Grammar {
    /// How many octets of a line stand before the first token that no line has there; none where the line is in the grammar.
    ghost fault_of: { Self → List ℕ → Option ℕ };

    /// The same of a line.
    fn fault_place(&self, line: TakenLine<'_>) -> Option<usize>
        ensures { result ≡ fault_of self.now line.entry.octets.now };
}

/// Whether a line of a grammar may have this token behind these octets, with a blank between. The empty token is the line's end.
pub fn may_stand<G: Grammar>(grammar: &G, before: &[u8], token: &[u8]) -> bool
    ensures { result ≡ standing.may_stand (G.fault_of grammar.now) before.now token.now }
{
    let mut tried: ArrayVec<u8, LONGEST_LINE> = ArrayVec::new();
    if tried.try_extend_from_slice(before).is_err()
        || tried.try_push(b' ').is_err()
        || tried.try_extend_from_slice(token).is_err()
    {
        return false;
    }
    match grammar.fault_place(TakenLine {
        octets: tried.as_slice(),
    }) {
        Some(place) => before.len() + 1 < place,
        None => true,
    }
}

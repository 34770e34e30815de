//! A line of input as it is taken: one that has no more octets than a line may have.
#![tactic(auto)]

ghost use Rattle.std.specs.Prelude.{◌≡◌, ◌≤◌, IfSome, length, option_map};
ghost use Rattle.scql_model.specs.Lines.{longest_line, taken_line};

/// How many octets a line has at most.
pub const LONGEST_LINE: usize = 1000;

/// A line of at most 1,000 octets, without its line feed.
#[derive(Clone, Copy)]
pub struct TakenLine<'a> {
    pub octets: &'a [u8],
    pub ghost short: { length octets.now ≤ longest_line },
}

impl<'a> TakenLine<'a> {
    /// A line as it is taken: there is none where it has more octets than a line may have.
    pub fn of(octets: &'a [u8]) -> Option<TakenLine<'a>>
        ensures taken { option_map (λ line. line.octets.now) result ≡ taken_line octets.now }
        ensures same { IfSome result (λ line. line.octets.now ≡ octets.now) }
    {
        if octets.len() <= LONGEST_LINE {
            Some(TakenLine { octets })
        } else {
            None
        }
    }

    /// The octets of a line that is taken, or none.
    pub fn octets_of(line: Option<TakenLine<'a>>) -> Option<&'a [u8]>
        ensures octets { option_map (λ octets. octets.now) result ≡ option_map (λ line. line.octets.now) line.entry }
        ensures short { IfSome result (λ octets. length octets.now ≤ longest_line) }
    {
        match line {
            Some(line) => Some(line.octets),
            None => None,
        }
    }
}

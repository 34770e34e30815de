// Laws over octets that are cut into lines. Each is the contract of a function that does nothing.
ghost use Rattle.std.specs.Prelude.{◌≡◌, ℕ, true, false, List, [], ◌∷◌, ◌++◌, Bool};
ghost use Rattle.scql_model.specs.Lines.{lines, taken_line};
ghost use Rattle.line_input.specs.Cutting.{cut_from, nothing_cut, is_empty_line, open_end, taken_lines};

/// Octet by octet the lines are cut that the octets have as a whole: those that came in whole are the ones that end with a line feed,
/// and the one that has begun is what stands behind the last line feed.
pub fn lines_are_cut_as_they_come()
    ensures { (octets : List ℕ) → cut_from nothing_cut octets ≡ record { whole = taken_lines octets false; begun = taken_line (open_end octets) } }
{}

/// A line feed ends the line that has begun behind the octets before it, and the lines behind it are those of the rest.
pub fn lines_end_with_their_feeds()
    ensures { (octets rest : List ℕ) (ended : Bool) → lines (octets ++ 0x0A ∷ rest) ended ≡ lines octets false ++ open_end octets ∷ lines rest ended }
{}

/// Where the input has ended, what stands behind the last line feed is a line too, unless it is empty.
pub fn lines_end_where_the_input_does()
    ensures open { (octets : List ℕ) → is_empty_line (taken_line (open_end octets)) ≡ false → lines octets true ≡ lines octets false ++ open_end octets ∷ [] }
    ensures closed { (octets : List ℕ) → is_empty_line (taken_line (open_end octets)) ≡ true → lines octets true ≡ lines octets false }
{}

// Which calls of a fake are to fail.
ghost use Rattle.std.specs.Prelude.{◌≡◌};
ghost use Rattle.eeprom.specs.Planned.{calls_of, none_made, next_made, is_next_failing};

/// The numbers, from 0, of the calls that fail. A failing write leaves `fill` in its whole range,
/// and a failing give gives the first half of its piece, rounded down.
#[derive(Drop)]
pub struct FaultPlan {
    pub reads: Vec<usize>,
    pub writes: Vec<usize>,
    pub gives: Vec<usize>,
    pub fill: u8,
}

/// The calls of one kind: the numbers of those that fail, and how many were made.
#[derive(Drop)]
pub struct Calls {
    failing: Vec<usize>,
    made: usize,
}

impl Calls {
    pub fn new(failing: Vec<usize>) -> Calls
        ensures { calls_of result ≡ none_made failing.items }
    {
        Calls { failing, made: 0 }
    }

    /// Makes the next call, and answers whether it fails.
    pub fn next_fails(&mut self) -> bool
        ensures fails { result ≡ is_next_failing (calls_of self.old) }
        ensures made { calls_of self.new ≡ next_made (calls_of self.old) }
    {
        let number = self.made;
        self.made = number.saturating_add(1);
        self.failing.contains(&number)
    }
}

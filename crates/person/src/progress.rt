// How far a run has come, on one line that is written again and again where a person watches.
ghost use Rattle.std.specs.Prelude.{◌≡◌, ◌≤◌, length};
ghost use Rattle.person.specs.Progress.{end_shown, progress_line, step_shown};
ghost use Rattle.person.specs.Showing.{Shows};

use crate::{Person, put};
use arrayvec::ArrayVec;
use itoa::Buffer;

/// How many octets the words of a line have at most.
pub const LONGEST_WORDS: usize = 11;

// The longest line: a carriage return, its words, and a number of at most 20 digits.
const LONGEST_LINE: usize = 1 + LONGEST_WORDS + 20;

/// A line that tells a count, and how often it does.
#[derive(Clone, Copy)]
pub struct Progress {
    /// What stands before the count, with a blank at its end.
    pub words: &'static [u8],
    /// Each so many the line is written anew: often enough for a person, and seldom enough to cost little beside what is counted.
    pub each: u64,
}

impl Progress {
    /// A step is done: so many were counted before it, and so many are now. The line is shown where they differ and this is a multiple of `each`.
    pub fn show<P: Person>(self, before: u64, now: u64, person: &mut P)
        requires short { length self.words.now ≤ LONGEST_WORDS }
        requires some { 1 ≤ self.each }
        ensures { Shows P.lost P.shown (step_shown self.words.now self.each before now) person.old person.new }
    {
        if now != before && now % self.each == 0 {
            person.show(&self.line(now));
        }
    }

    /// No more are counted than so many: what comes behind the line stands on the next one.
    pub fn end<P: Person>(self, count: u64, person: &mut P)
        ensures { Shows P.lost P.shown (end_shown self.each count) person.old person.new }
    {
        if self.each <= count {
            person.show(b"\n");
        }
    }

    // The line, written over the one before. The number never falls, so that nothing of that one is left.
    fn line(self, count: u64) -> ArrayVec<u8, LONGEST_LINE>
        requires { length self.words.now ≤ LONGEST_WORDS }
        ensures { result.items ≡ progress_line self.words.now count }
    {
        let mut line = ArrayVec::new();
        put(&mut line, b"\r");
        put(&mut line, self.words);
        put(&mut line, Buffer::new().format(count).as_bytes());
        line
    }
}

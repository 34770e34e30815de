// How far a load has come, on one line that is written again and again where a person watches.
ghost use Rattle.std.specs.Prelude.{◌≡◌, ◌≤◌, nat_le};
ghost use Rattle.person.specs.Showing.{Shows};
ghost use Rattle.card_run.specs.Progress.{progress_line};
ghost use Rattle.card_run.specs.Watching.{Rewrites, ended_text, none_yet, passed_text, standing_text, with_row};

use arrayvec::ArrayVec;
use person::{Person, put_count};

/// Each so many rows the line is written anew: often enough for a person, and seldom enough to cost little beside the rows.
const EACH: u32 = 16;

/// The longest line: a carriage return, its words, and three numbers of at most ten digits.
const LONGEST_LINE: usize = 58;

/// How many rows a load has passed so far, and how many of them it has inserted, changed and deleted.
#[derive(Clone, Copy, PartialEq, Eq, Debug)]
pub(crate) struct Progress {
    passed: u32,
    inserted: u32,
    changed: u32,
    deleted: u32,
}

impl Progress {
    pub(crate) fn new() -> Progress
        ensures { result ≡ none_yet }
    {
        Progress {
            passed: 0,
            inserted: 0,
            changed: 0,
            deleted: 0,
        }
    }

    /// The next row was inserted, or refused.
    pub(crate) fn pass_row<P: Person>(&mut self, refused: bool, person: &mut P)
        requires passed { self.old.passed ≤ 65535 }
        requires inserted { self.old.inserted ≤ 65535 }
        ensures row { self.new ≡ with_row refused self.old }
        ensures shows { Shows P.lost P.shown (passed_text self.new) person.old person.new }
    {
        self.passed += 1;
        if !refused {
            self.inserted += 1;
        }
        if self.passed % EACH == 0 {
            self.write(person);
        }
    }

    /// So many rows were changed.
    pub(crate) fn set_changed<P: Person>(&mut self, rows: u32, person: &mut P)
        ensures { Rewrites P.lost P.shown (record self.old { changed = rows }) self.new person.old person.new }
    {
        self.changed = rows;
        self.rewrite(person);
    }

    /// So many rows were deleted.
    pub(crate) fn set_deleted<P: Person>(&mut self, rows: u32, person: &mut P)
        ensures { Rewrites P.lost P.shown (record self.old { deleted = rows }) self.new person.old person.new }
    {
        self.deleted = rows;
        self.rewrite(person);
    }

    /// The load has ended: what comes behind the line stands on the next one.
    pub(crate) fn end<P: Person>(self, person: &mut P)
        ensures { Shows P.lost P.shown (ended_text self) person.old person.new }
    {
        if self.stands() {
            person.show(b"\n");
        }
    }

    // Writes the line over the one before, where it stands there.
    fn rewrite<P: Person>(&self, person: &mut P)
        ensures { Shows P.lost P.shown (standing_text self.now) person.old person.new }
    {
        if self.stands() {
            self.write(person);
        }
    }

    fn write<P: Person>(&self, person: &mut P)
        ensures { Shows P.lost P.shown (progress_line self.now.inserted self.now.changed self.now.deleted) person.old person.new }
    {
        person.show(&line_of(self.inserted, self.changed, self.deleted));
    }

    // Whether the line stands there. A load of few rows has none.
    fn stands(&self) -> bool
        ensures { result ≡ nat_le 16 self.now.passed }
    {
        EACH <= self.passed
    }
}

// The line, written over the one before. No number ever falls, so that nothing of that one is left.
fn line_of(inserted: u32, changed: u32, deleted: u32) -> ArrayVec<u8, LONGEST_LINE>
    ensures { result.items ≡ progress_line inserted changed deleted }
{
    let mut line = ArrayVec::new();
    put_count(&mut line, b"\rinserted ", inserted);
    put_count(&mut line, b" changed ", changed);
    put_count(&mut line, b" deleted ", deleted);
    line
}

// The lines of a load's script, and its text.
ghost use Rattle.std.specs.Prelude.{◌≡◌, ◌+◌, ◌%◌, ◌≤◌, ◌<◌, ◌++◌, ◌∷◌, [], length};
ghost use Rattle.terminal.specs.Load as model;
ghost use Rattle.card_run.specs.Counted.{counts_of};

use arrayvec::ArrayVec;
use person::{put, put_count};
use taken_line::TakenLine;

pub(crate) const PRESENT: TakenLine<'static> = TakenLine {
    octets: b"PRESENT OWNER",
};

pub(crate) const CREATE: TakenLine<'static> = TakenLine {
    octets: b"CREATE TABLE LOAD (K, V)",
};

pub(crate) const CHANGE: TakenLine<'static> = TakenLine {
    octets: b"UPDATE LOAD SET V = '00000' WHERE V < '10000'",
};

pub(crate) const DELETE: TakenLine<'static> = TakenLine {
    octets: b"DELETE FROM LOAD WHERE V >= '50000'",
};

pub(crate) const SELECT: TakenLine<'static> = TakenLine {
    octets: b"SELECT * FROM LOAD",
};

/// The length of a line that inserts a row.
const INSERT_LENGTH: usize = 41;

/// The longest text: its words, and four numbers of at most ten digits.
const LONGEST_TEXT: usize = 78;

/// How many rows were read, changed and deleted, and how many statements were refused.
#[derive(Clone, Copy, PartialEq, Eq, Debug)]
pub(crate) struct LoadCounts {
    pub(crate) rows: u32,
    pub(crate) changed: u32,
    pub(crate) deleted: u32,
    pub(crate) refused: u32,
}

/// The pseudo-random number that follows one.
pub(crate) fn next_number(number: u32) -> u32
    requires { number < 65537 }
    ensures next { result ≡ model.next_number number }
    ensures below { result < 65537 }
{
    (75 * number + 74) % 65537
}

/// The line that inserts a row: its number in four digits, and its value in five.
pub(crate) fn insert_line(key: u16, value: u32) -> ArrayVec<u8, INSERT_LENGTH>
    ensures line { result.items ≡ model.insert_line key value }
    ensures short { length result.items ≤ 41 }
{
    let mut line = ArrayVec::new();
    put(&mut line, b"INSERT INTO LOAD VALUES ('");
    put_four_digits(&mut line, key as u32);
    put(&mut line, b"', '");
    put_four_digits(&mut line, value / 10);
    put_digit(&mut line, value);
    put(&mut line, b"')");
    line
}

// The last four digits of a number.
fn put_four_digits(line: &mut ArrayVec<u8, INSERT_LENGTH>, number: u32)
    requires { length line.old.items + 4 ≤ 41 }
    ensures digits { line.new.items ≡ line.old.items ++ model.last_digits 4 number }
    ensures size { length line.new.items ≡ length line.old.items + 4 }
{
    put_digit(line, number / 10 / 10 / 10);
    put_digit(line, number / 10 / 10);
    put_digit(line, number / 10);
    put_digit(line, number);
}

// The last digit of a number.
fn put_digit(line: &mut ArrayVec<u8, INSERT_LENGTH>, number: u32)
    requires { length line.old.items + 1 ≤ 41 }
    ensures digit { line.new.items ≡ line.old.items ++ (0x30 + number % 10) ∷ [] }
    ensures size { length line.new.items ≡ length line.old.items + 1 }
{
    line.push(b'0' + (number % 10) as u8);
}

/// The text of a load.
pub(crate) fn text_of(counts: &LoadCounts) -> ArrayVec<u8, LONGEST_TEXT>
    ensures { result.items ≡ model.counts_text (counts_of counts.now) }
{
    let mut text = ArrayVec::new();
    put_count(&mut text, b"load rows ", counts.rows);
    put_count(&mut text, b" changed ", counts.changed);
    put_count(&mut text, b" deleted ", counts.deleted);
    put_count(&mut text, b" refused ", counts.refused);
    text.push(b'\n');
    text
}

// What the terminal prints: rows, closing lines and errors.
ghost use Rattle.std.specs.Prelude.{◌≡◌, ◌+◌, ◌*◌, ◌≤◌, ◌++◌, ◌<◌, ℕ, List, [], length, codes, option_copied, OnOk, OnErr};
ghost use Rattle.std.specs.List.{list_all};
ghost use Rattle.eeprom.specs.Fault.{Counts};
ghost use Rattle.eeprom.specs.Output.{Prints};
ghost use Rattle.hex.specs.Hex.{encode_upper};
ghost use Rattle.scql_base.specs.Row.{row_from};
ghost use Rattle.planner.specs.Text as model;
ghost use Rattle.terminal.specs.Going.{printed_row};
ghost use Rattle.terminal.specs.Printed.{between_quotes, in_hexadecimal, lead};
ghost use Rattle.terminal.specs.Failing.{IsStart};

use arrayvec::ArrayVec;
use eeprom::{Outlet, SinkFault};
use itoa::Buffer;
use planner::Closing;
use scql_base::{Row, StatusWord};
use script::ScriptFault;

/// The longest line of a row: two octets for each of the row and three more for each value, and a line feed.
pub(crate) const LONGEST_ROW: usize = 2086;

/// The longest closing line.
pub const LONGEST_CLOSING: usize = 50;

/// Makes the text of a row of an answer, on a line of its own. Octets that are no row have none.
pub(crate) fn put_row_text(row: Option<&Row>, text: &mut ArrayVec<u8, LONGEST_ROW>)
    ensures { (octets : List ℕ) → option_copied row.entry ≡ row_from octets → text.new.items ≡ printed_row octets }
{
    text.clear();
    if let Some(row) = row {
        put_row(text, row);
    }
}

fn put_row(text: &mut ArrayVec<u8, LONGEST_ROW>, row: &Row)
    requires { text.old.items ≡ [] }
    ensures { text.new.items ≡ model.row_text row.now }
{
    for place in 0..row.len() {
        let Some(value) = row.get(place) else {
            continue;
        };
        put_between(text, place);
        put_value(text, value);
    }
    text.push(b'\n');
}

// Between values stand a comma and a space.
fn put_between(text: &mut ArrayVec<u8, LONGEST_ROW>, place: usize)
    requires { length text.old.items ≤ 2084 }
    ensures { text.new.items ≡ text.old.items ++ lead place }
{
    if place != 0 {
        put(text, b", ");
    }
}

/// Prints a value, as in a row: between quotes, or in hexadecimal where it has octets that aren't printed.
pub fn give_value<O: Outlet>(outlet: &mut O, value: &[u8]) -> Result<(), SinkFault>
    requires short { length value.now ≤ 200 }
    ensures printed { OnOk result (Prints (model.value_text value.now) (O.given outlet.old) (O.given outlet.new)) }
    ensures cut { OnErr result (IsStart (model.value_text value.now) (O.given outlet.old) (O.given outlet.new)) }
    ensures rest { O.leaves outlet.old outlet.new }
    ensures counts { Counts (O.sink_faults outlet.old) (O.sink_faults outlet.new) result }
{
    let mut text = ArrayVec::new();
    put_value(&mut text, value);
    outlet.give(&text)
}

// A value between quotes, or in hexadecimal where it has octets that aren't printed.
fn put_value(text: &mut ArrayVec<u8, LONGEST_ROW>, value: &[u8])
    requires short { length value.now ≤ 200 }
    requires room { length text.old.items + 2 * length value.now + 3 ≤ 2086 }
    ensures { text.new.items ≡ text.old.items ++ model.value_text value.now }
{
    if are_printed(value) {
        put_quoted(text, value);
    } else {
        put_hexadecimal(text, value);
    }
}

fn are_printed(value: &[u8]) -> bool
    ensures { result ≡ list_all model.is_printed value.now }
{
    value.iter().all(|octet| is_printed(*octet))
}

fn is_printed(octet: u8) -> bool
    ensures { result ≡ model.is_printed octet }
{
    0x20 <= octet && octet <= 0x7E
}

// A quote within the value is printed twice.
fn put_quoted(text: &mut ArrayVec<u8, LONGEST_ROW>, value: &[u8])
    requires { length text.old.items + 2 * length value.now + 3 ≤ 2086 }
    ensures { text.new.items ≡ text.old.items ++ between_quotes value.now }
{
    text.push(b'\'');
    for octet in value {
        if *octet == b'\'' {
            text.push(b'\'');
        }
        text.push(*octet);
    }
    text.push(b'\'');
}

fn put_hexadecimal(text: &mut ArrayVec<u8, LONGEST_ROW>, value: &[u8])
    requires short { length value.now ≤ 200 }
    requires room { length text.old.items + 2 * length value.now + 3 ≤ 2086 }
    ensures { text.new.items ≡ text.old.items ++ in_hexadecimal value.now }
{
    let mut digits = [0; 400];
    let digits = &mut digits[..2 * value.len()];
    print_into(value, digits);
    put(text, b"X'");
    put(text, digits);
    text.push(b'\'');
}

#[tactic(auto, using(apdu::proofs::HexadecimalTexts::upper_of_lower))]
fn print_into(octets: &[u8], digits: &mut [u8])
    requires { length digits.old ≡ 2 * length octets.now }
    ensures { digits.new ≡ encode_upper octets.now }
{
    let fits = hex::encode_to_slice(octets, digits).is_ok();
    prove!(fits);
    digits.make_ascii_uppercase();
}

/// How a statement ended, on a line of its own.
pub fn closing_text(closing: Closing) -> ArrayVec<u8, LONGEST_CLOSING>
    ensures { result.items ≡ model.closing_text closing }
{
    match closing {
        Closing::Nothing => ArrayVec::new(),
        Closing::Fine => line_of(b"ok", b""),
        Closing::Rows { number } | Closing::Cut { number } => line_of(
            b"rows ",
            Buffer::new().format(number).as_bytes(),
        ),
        Closing::Refused { word } => {
            let mut digits = [0; 4];
            print_into(&word.word.to_be_bytes(), &mut digits);
            line_of(b"refused ", &digits)
        }
    }
}

/// Why a line is no statement, on a line of its own.
pub fn fault_text(fault: ScriptFault) -> ArrayVec<u8, LONGEST_CLOSING>
    ensures { result.items ≡ model.fault_text fault }
{
    match fault {
        ScriptFault::At { place } => line_of(b"error at ", Buffer::new().format(place).as_bytes()),
        ScriptFault::TooLarge => line_of(b"error too large", b""),
    }
}

fn line_of(words: &[u8], number: &[u8]) -> ArrayVec<u8, LONGEST_CLOSING>
    requires { length words.now + length number.now < 50 }
    ensures { result.items ≡ words.now ++ (number.now ++ codes "\n") }
{
    let mut line = ArrayVec::new();
    put(&mut line, words);
    put(&mut line, number);
    line.push(b'\n');
    line
}

fn put<const CAP: usize>(text: &mut ArrayVec<u8, CAP>, octets: &[u8])
    requires { length text.old.items + length octets.now ≤ CAP }
    ensures { text.new.items ≡ text.old.items ++ octets.now }
{
    let fits = text.try_extend_from_slice(octets).is_ok();
    prove!(fits);
}

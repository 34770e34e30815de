// Lines that ask a card: a command in hexadecimal, or the word `reset`.
ghost use Rattle.std.specs.Prelude.{◌≡◌, ◌≤◌, IfSome, length, option_map};
ghost use Rattle.hex.specs.Hex.{decode_of};
ghost use Rattle.scql_model.specs.Lines as model;
ghost use Rattle.apdu.specs.Line.{IsRead};

use arrayvec::ArrayVec;

// How many octets a line has at most.
const LONGEST_LINE: usize = 1000;

/// How many octets a command has at most that is written in a line.
pub const LONGEST_COMMAND: usize = LONGEST_LINE / 2;

/// What a line asks for.
#[derive(Clone, Copy)]
pub enum LineContent {
    /// It has more than 1,000 octets.
    TooLong,
    /// Blank, or a note.
    Nothing,
    /// The word `reset`.
    Reset,
    /// Neither blank, a note or the word `reset`, nor an even number of hexadecimal digits.
    NotHexadecimal,
    /// A command of so many octets, the first ones of the place to which it was read.
    Command { size: usize },
}

/// Reads a whole line, without its line feed; there is none where it is too long. Spaces, tabs and carriage returns count for nothing, and a
/// note begins with `#`. A command's octets are put to the front of the place; where there is no command, what the place has is left open.
pub fn read_line(line: Option<&[u8]>, place: &mut [u8; LONGEST_COMMAND]) -> LineContent
    requires { IfSome line (λ octets. length octets.now ≤ model.longest_line) }
    ensures { IsRead place.new result (model.content_of (option_map (λ octets. octets.now) line.entry)) }
{
    let Some(octets) = line else {
        return LineContent::TooLong;
    };
    if octets.is_empty() {
        return LineContent::Nothing;
    }
    // Most lines are hexadecimal as they are. Of the others the blanks are taken out.
    match read_command(octets, place) {
        LineContent::NotHexadecimal => read_with_blanks(octets, place),
        content => content,
    }
}

// Reads a line without its spaces, tabs and carriage returns.
#[inline(never)]
fn read_with_blanks(line: &[u8], place: &mut [u8; LONGEST_COMMAND]) -> LineContent
    requires { length line.now ≤ LONGEST_LINE }
    ensures { IsRead place.new result (model.content_without_blanks (model.without_blanks line.now)) }
{
    let mut kept = ArrayVec::new();
    for octet in line {
        if !is_blank(*octet) {
            kept.push(*octet);
        }
    }
    read_digits(&kept, place)
}

// Reads a line that has no blanks.
fn read_digits(line: &ArrayVec<u8, LONGEST_LINE>, place: &mut [u8; LONGEST_COMMAND]) -> LineContent
    ensures { IsRead place.new result (model.content_without_blanks line.now.items) }
{
    match line.as_slice() {
        [] | [b'#', ..] => LineContent::Nothing,
        b"reset" => LineContent::Reset,
        digits => read_command(digits, place),
    }
}

fn read_command(digits: &[u8], place: &mut [u8; LONGEST_COMMAND]) -> LineContent
    requires { length digits.now ≤ LONGEST_LINE }
    ensures { IsRead place.new result (model.hexadecimal_in (decode_of digits.now)) }
{
    let size = digits.len() / 2;
    match hex::decode_to_slice(digits, &mut place[..size]) {
        Ok(()) => LineContent::Command { size },
        Err(_) => LineContent::NotHexadecimal,
    }
}

fn is_blank(octet: u8) -> bool
    ensures { result ≡ model.is_blank octet }
{
    octet == b' ' || octet == b'\t' || octet == b'\r'
}

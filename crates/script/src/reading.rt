// Reads the statement of a line.
ghost use Rattle.std.specs.Prelude.{◌≡◌, IfOk, OnOk, IfErr, Ok, Err};
ghost use Rattle.script.specs.Commands.{CanAlwaysBeSent};
ghost use Rattle.script.specs.Line as lines;
ghost use Rattle.script.specs.Tokens.{after_blanks};

use crate::parsed::Parsed;
use crate::size::is_too_large;
use crate::tokens::{Tokens, after_blanks};
use crate::{ScriptFault, Statement};
use taken_line::TakenLine;

impl Statement {
    /// The statement that a line is.
    ///
    /// `At` comes exactly where the line is in no statement's grammar. `TooLarge` comes exactly where it is a statement, but
    /// a row is over 1,020 octets, or a command doesn't fit: its data field is over 255, and over 1,275 for INSERT and UPDATE.
    pub fn read(line: TakenLine<'_>) -> Result<Statement, ScriptFault>
        ensures statement { result ≡ lines.statement_of line.entry.octets.now }
        // Each command that the statement becomes, on whichever channel, is well-formed and fits.
        ensures sendable { IfOk result CanAlwaysBeSent }
    {
        let mut statement = Statement::Blank;
        match Statement::read_into(line, &mut statement) {
            Ok(()) => Ok(statement),
            Err(fault) => Err(fault),
        }
    }

    /// Reads the statement of a line into a place, as `read` does. Where there is none, what the place has is left open.
    pub fn read_into(line: TakenLine<'_>, place: &mut Statement) -> Result<(), ScriptFault>
        ensures statement { OnOk result (lines.statement_of line.entry.octets.now ≡ Ok place.new) }
        ensures fault { IfErr result (λ fault. lines.statement_of line.entry.octets.now ≡ Err fault) }
        ensures sendable { OnOk result (CanAlwaysBeSent place.new) }
    {
        read_statement(line, place)
    }
}

// Reads the statement of a line into a place.
fn read_statement(line: TakenLine<'_>, place: &mut Statement) -> Result<(), ScriptFault>
    ensures statement { OnOk result (lines.statement_of line.entry.octets.now ≡ Ok place.new) }
    ensures fault { IfErr result (λ fault. lines.statement_of line.entry.octets.now ≡ Err fault) }
{
    if is_nothing(line.octets) {
        *place = Statement::Blank;
        return Ok(());
    }
    let mut tokens = Tokens::new(line.octets);
    match tokens.whole(place) {
        Some(Parsed::Held) if !is_too_large(place) => Ok(()),
        Some(_) => Err(ScriptFault::TooLarge),
        None => Err(ScriptFault::At {
            place: line.octets.len().saturating_sub(tokens.left()) as u16,
        }),
    }
}

/// Does a line ask for nothing? It has no tokens, or its first octet that isn't blank is `#`.
pub fn is_nothing(line: &[u8]) -> bool
    ensures { result ≡ lines.is_nothing (after_blanks line.now) }
{
    match after_blanks(line) {
        [first, ..] => *first == b'#',
        [] => true,
    }
}

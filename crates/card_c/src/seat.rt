// A terminal that may be there, and what becomes of it.
ghost use Rattle.std.specs.Prelude.{◌≡◌, IsTrue, Some, None, option_map};
ghost use Rattle.scql_model.specs.Lines.{line_effect};
ghost use Rattle.scql_model.specs.Machine.{Machine};
ghost use Rattle.planner.specs.Held.{held_after_octets};
ghost use Rattle.planner.specs.StatementLines.{statement_lines};
ghost use Rattle.terminal.specs.Holding.{Knows, terminal_at};
ghost use Rattle.terminal.specs.Line.{EndsBy};
ghost use Rattle.card_c.specs.Lines.{SaysLine, status_in};
ghost use Rattle.card_c.specs.OnLog.{IsDeskAt, faults_of, is_live, text_faults_of};

use crate::card_desk::CardDesk;
use crate::status::{DONE, NO_MEMORY};
use apdu::Reply;
use eeprom::Heap;
use taken_line::TakenLine;
use terminal::{LineEnd, Terminal};

/// Goes on behind a command that was answered so.
pub fn note(seat: &mut Option<Box<Terminal, Heap>>, command: &[u8], reply: &Reply)
    ensures { option_map (λ b. b.value) seat.new ≡ option_map (λ b. record b.value { transaction = held_after_octets command.now reply.now.word b.value.transaction }) seat.old }
{
    if let Some(terminal) = seat {
        terminal.note(command, reply.word);
    }
}

/// Goes on behind a reset of the card: on channel 0, with no transaction.
pub fn begin_anew(seat: &mut Option<Box<Terminal, Heap>>)
    ensures { option_map (λ b. b.value) seat.new ≡ option_map (λ b. record { channel = 0; transaction = None }) seat.old }
{
    if let Some(terminal) = seat {
        **terminal = Terminal::new();
    }
}

/// Carries out a line of any length.
pub fn say(terminal: &mut Terminal, desk: &mut CardDesk, line: &[u8]) -> LineEnd
    requires { IsTrue (is_live desk.old) }
    ensures said { (m : Machine) → IsDeskAt desk.old m → Knows terminal.old.transaction m
        → SaysLine m (line_effect statement_lines (terminal_at m terminal.old.channel) line.now) terminal.new result desk.old desk.new }
    ensures ends_by { EndsBy is_live faults_of text_faults_of result desk.old desk.new }
{
    match TakenLine::of(line) {
        Some(line) => terminal.line(desk, line),
        None => terminal.refuse_long_line(desk),
    }
}

/// How a call ends that carried out a line.
pub fn status_of(end: LineEnd) -> u32
    ensures { result ≡ status_in end }
{
    match end {
        LineEnd::Answered | LineEnd::Refused { .. } => DONE,
        LineEnd::Mute | LineEnd::SinkFault => NO_MEMORY,
    }
}

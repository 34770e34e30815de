// A terminal, and what it does with a line.
ghost use Rattle.std.specs.Prelude.{◌≡◌, ◌≤◌, [], length, IsTrue, None, Some, Ok};
ghost use Rattle.scql_model.specs.Machine.{Machine};
ghost use Rattle.scql_model.specs.Lines.{line_effect};
ghost use Rattle.scql_model.specs.Step.{step};
ghost use Rattle.script.specs.Line.{statement_of};
ghost use Rattle.card_link.specs.Link.{LeavesOpen};
ghost use Rattle.planner.specs.Held.{held_after_octets};
ghost use Rattle.planner.specs.StatementLines.{statement_lines};
ghost use Rattle.terminal.specs.Ending.{EndsLine, EndsQuietLine, LineLeaves, QuietLeaves};
ghost use Rattle.terminal.specs.Holding.{Knows};
ghost use Rattle.terminal.specs.Line.{IsMoment, refusal_in, rows_in};
ghost use Rattle.terminal.specs.Quiet.{closing_in};

use crate::channels::{Channels, close};
use crate::following::Room;
use crate::printing::fault_text;
use crate::{LineEnd, QuietEnd, Refusal};
use card_link::{CardLink, Desk};
use planner::Plan;
use scql_base::StatusWord;
use script::Statement;
use std::marker::Model;
use taken_line::TakenLine;

/// A terminal: its channels, the plan of a statement, into which each line is read, and what is used again for each of its steps.
#[derive(Drop)]
pub struct Terminal {
    channels: Channels,
    plan: Plan,
    room: Room,
}

impl Model for Terminal {
    ghost use Rattle.terminal.specs.Holding.{Holding};

    ghost Value = { Holding };

    ghost view = { λ t. t.channels };
}

impl Terminal {
    /// A terminal on channel 0, with no transaction.
    pub fn new() -> Terminal
        ensures { result ≡ record { channel = 0; transaction = None } }
    {
        Terminal {
            channels: Channels::new(),
            plan: Plan::start(Statement::Blank, 0, false),
            room: Room::new(),
        }
    }

    /// Reads a line as a statement, carries it out and prints what comes of it.
    pub fn line<L: Desk>(&mut self, link: &mut L, line: TakenLine<'_>) -> LineEnd
        requires live { IsTrue (L.is_live link.old) }
        ensures ended { EndsLine L.is_at L.given L.mark L.chip (λ state. line_effect statement_lines state line.entry.octets.now) (λ state. rows_in state (statement_of line.entry.octets.now)) (λ state. refusal_in state (statement_of line.entry.octets.now))
            self.old self.new result link.old link.new }
        ensures leaves { LineLeaves L.is_live L.faults L.sink_faults L.goes_on result link.old link.new }
    {
        match self.channels.read(line, &mut self.plan) {
            Ok(()) => self.channels.run(link, &mut self.plan, &mut self.room),
            Err(fault) => close(link, &fault_text(fault), Some(Refusal::Fault { fault })),
        }
    }

    /// Says of a line that is longer than a line may be that it is refused.
    pub fn refuse_long_line<L: Desk>(&mut self, link: &mut L) -> LineEnd
        ensures ended { EndsLine L.is_at L.given L.mark L.chip (λ state. statement_lines.effect state None) (λ _. []) (λ _. Some Refusal.TooLong) self.old self.new result link.old link.new }
        ensures leaves { LineLeaves L.is_live L.faults L.sink_faults L.goes_on result link.old link.new }
        // A power loss leaves the database as it was, also where the terminal doesn't know which channel has the open transaction.
        ensures moments { (m : Machine) → L.is_at link.old m → LeavesOpen (IsMoment (L.mark link.old) m.committed []) (L.chip link.old) (L.chip link.new) }
    {
        close(link, b"error line too long\n", Some(Refusal::TooLong))
    }

    /// Reads a line as a statement and carries it out as `line` does, but prints nothing.
    pub fn quiet<L: CardLink>(&mut self, link: &mut L, line: TakenLine<'_>) -> QuietEnd
        requires live { IsTrue (L.is_live link.old) }
        ensures ended { EndsQuietLine L.is_at L.mark L.chip (λ state. line_effect statement_lines state line.entry.octets.now) (λ state. closing_in state (statement_of line.entry.octets.now)) self.old self.new result link.old link.new }
        ensures leaves { QuietLeaves L.is_live L.faults L.mark L.keeps L.goes_on result link.old link.new }
    {
        match self.channels.read(line, &mut self.plan) {
            Ok(()) => self
                .channels
                .run_quietly(link, &mut self.plan, &mut self.room),
            Err(_) => QuietEnd::Faulty,
        }
    }

    /// Goes on behind a command that was sent to the terminal's card past the terminal, and answered by this word: the terminal knows which channel has
    /// the open transaction as it did before.
    pub fn note(&mut self, command: &[u8], word: StatusWord)
        ensures knows { (m : Machine) → Knows self.old.transaction m → word ≡ (step m command.now).reply.word → Knows self.new.transaction (step m command.now).machine }
        ensures noted { self.new ≡ record self.old { transaction = held_after_octets command.now word self.old.transaction } }
    {
        self.channels.note(command, word);
    }
}

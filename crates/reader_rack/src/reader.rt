// A reader of a rack.
ghost use Rattle.std.specs.Prelude.{◌≡◌, ℕ, Bool, true, false, IsTrue, None, Some, is_some, if◌then◌else◌, codes};
ghost use Rattle.scql_model.specs.Lines.{line_effect};
ghost use Rattle.scql_model.specs.Machine.{Machine};
ghost use Rattle.script.specs.Line.{statement_of};
ghost use Rattle.planner.specs.StatementLines.{TerminalState, statement_lines};
ghost use Rattle.terminal.specs.Holding.{Knows, Sits, terminal_at};
ghost use Rattle.terminal.specs.Line as lines;
ghost use Rattle.terminal.specs.Line.{EndsSo, refusal_in, rows_in};
ghost use Rattle.reader_rack.specs.RackText.{Held, asked, heard, unheard};
ghost use Rattle.reader_rack.specs.Steps.{IsExchanged, IsReset};
ghost use Rattle.reader_rack.specs.Readers.{EndsBy, EndsEffect, Holds, IsHeld, IsSaidOrCut, answers, count, lending, with_link};

use crate::desk::RackDesk;
use crate::{RackEnd, RackRefusal};
use apdu::Reply;
use card_link::{CardLink, Outcome};
use eeprom::Outlet;
use script::is_nothing;
use taken_line::TakenLine;
use terminal::{LineEnd, Terminal};

/// A reader: the link that it holds, the one that was set aside, and a terminal.
#[derive(Drop)]
pub(crate) struct Reader<L: CardLink> {
    link: Option<L>,
    aside: Option<L>,
    terminal: Terminal,
}

impl<L: CardLink> Reader<L> {
    /// A reader that holds nothing.
    pub(crate) fn new() -> Reader<L>
        ensures { result ≡ record { link = None; aside = None; terminal = record { channel = 0; transaction = None } } }
    {
        Reader {
            link: None,
            aside: None,
            terminal: Terminal::new(),
        }
    }

    /// Whether it holds a link.
    pub(crate) fn is_held(&self) -> bool
        ensures { result ≡ is_some self.now.link }
    {
        self.link.is_some()
    }

    /// Whether it holds a link that answers.
    pub(crate) fn live(&self) -> bool
        ensures { result ≡ answers L.is_live self.now }
    {
        match &self.link {
            Some(link) => link.live(),
            None => false,
        }
    }

    /// Takes a link in. Its terminal is new, and a link that was set aside goes.
    pub(crate) fn insert(&mut self, link: L)
        ensures { self.new ≡ record { link = Some link; aside = None; terminal = record { channel = 0; transaction = None } } }
    {
        self.link = Some(link);
        self.aside = None;
        self.terminal = Terminal::new();
    }

    /// Sets its link aside, if it holds one, and tells whether it did.
    pub(crate) fn eject(&mut self) -> bool
        ensures held { result ≡ is_some self.old.link }
        ensures aside { self.new ≡ (if is_some self.old.link then record self.old { link = None; aside = self.old.link } else self.old) }
    {
        if self.link.is_none() {
            return false;
        }
        self.aside = self.link.take();
        true
    }

    /// Lends its link. The terminal stays.
    pub(crate) fn take(&mut self) -> L
        requires { IsTrue (is_some self.old.link) }
        ensures link { self.old.link ≡ Some result }
        ensures lent { self.new ≡ lending self.old }
    {
        match self.link.take() {
            Some(link) => link,
            None => unreachable!(),
        }
    }

    /// Holds a link that was lent again.
    pub(crate) fn put_back(&mut self, link: L)
        ensures { self.new ≡ with_link link self.old }
    {
        self.link = Some(link);
    }

    /// Sends a command to its link, and tells its terminal how it was answered.
    pub(crate) fn exchange(&mut self, command: &[u8], reply: &mut Reply) -> Outcome
        requires live { IsTrue (answers L.is_live self.old) }
        ensures { IsExchanged L.is_at L.is_live L.faults L.mark L.chip command.now reply.new result self.old self.new }
    {
        match &mut self.link {
            Some(link) => match link.exchange(command, reply) {
                Outcome::Replied => {
                    self.terminal.note(command, reply.word);
                    Outcome::Replied
                }
                Outcome::Mute => Outcome::Mute,
            },
            None => unreachable!(),
        }
    }

    /// Resets its link, and its terminal with it.
    pub(crate) fn reset(&mut self)
        requires live { IsTrue (answers L.is_live self.old) }
        ensures { IsReset L.is_at L.is_live L.faults L.mark L.chip self.old self.new }
    {
        match &mut self.link {
            Some(link) => {
                link.reset();
                self.terminal = Terminal::new();
            }
            None => unreachable!(),
        }
    }

    /// Reads a line as a statement, carries it out where a link answers, and prints what comes of it.
    pub(crate) fn answer<O: Outlet>(&mut self, outlet: &mut O, line: TakenLine<'_>) -> RackEnd
        ensures ends { (held : Held) → Holds L.is_at L.is_live self.old held
            → EndsEffect (Holds L.is_at L.is_live self.new) (asked held line.entry.octets.now) result (O.given outlet.old) (O.given outlet.new) }
        ensures ends_by { EndsBy result (answers L.is_live self.old) (answers L.is_live self.new) (count L.faults self.old) (count L.faults self.new) (O.sink_faults outlet.old) (O.sink_faults outlet.new) }
        ensures aside { self.new.aside ≡ self.old.aside }
    {
        match &mut self.link {
            Some(link) if link.live() => answer_at(&mut self.terminal, link, outlet, line),
            _ => answer_unheard(outlet, line.octets),
        }
    }
}

// A line where a link answers.
fn answer_at<L: CardLink, O: Outlet>(
    terminal: &mut Terminal,
    link: &mut L,
    outlet: &mut O,
    line: TakenLine<'_>,
) -> RackEnd
    requires live { IsTrue (L.is_live link.old) }
    ensures ends { (state : TerminalState) → Sits L.is_at state terminal.old link.old
        → EndsEffect (IsHeld L.is_at L.is_live (Some link.new) terminal.new) (heard state (statement_of line.entry.octets.now)) result (O.given outlet.old) (O.given outlet.new) }
    ensures ends_by { EndsBy result (L.is_live link.old) (L.is_live link.new) (L.faults link.old) (L.faults link.new) (O.sink_faults outlet.old) (O.sink_faults outlet.new) }
{
    match line_at(terminal, link, outlet, line) {
        LineEnd::Answered => RackEnd::Answered,
        LineEnd::Refused { why } => RackEnd::Refused {
            why: RackRefusal::Line { why },
        },
        LineEnd::Mute => say(outlet, b"card mute\n", RackEnd::Mute),
        LineEnd::SinkFault => RackEnd::SinkFault,
    }
}

// A line where no link answers.
fn answer_unheard<O: Outlet>(outlet: &mut O, line: &[u8]) -> RackEnd
    ensures ends { (held : Held) → EndsEffect (λ (h : Held). h ≡ held) (λ fails. unheard held line.now) result (O.given outlet.old) (O.given outlet.new) }
    ensures ends_by { (live : Bool) (faults : ℕ) → EndsBy result live live faults faults (O.sink_faults outlet.old) (O.sink_faults outlet.new) }
{
    if is_nothing(line) {
        return RackEnd::Answered;
    }
    say_no_card(outlet)
}

/// Says of a line that the reader that it is for holds no card that answers.
pub(crate) fn say_no_card<O: Outlet>(outlet: &mut O) -> RackEnd
    ensures { IsSaidOrCut (codes "no card\n") (RackEnd.Refused RackRefusal.NoCard) result (O.given outlet.old) (O.given outlet.new) (O.sink_faults outlet.old) (O.sink_faults outlet.new) }
{
    say(
        outlet,
        b"no card\n",
        RackEnd::Refused {
            why: RackRefusal::NoCard,
        },
    )
}

/// Prints a text that ends a line so.
pub(crate) fn say<O: Outlet>(outlet: &mut O, text: &[u8], end: RackEnd) -> RackEnd
    ensures { IsSaidOrCut text.now end result (O.given outlet.old) (O.given outlet.new) (O.sink_faults outlet.old) (O.sink_faults outlet.new) }
{
    match outlet.give(text) {
        Ok(()) => end,
        Err(_) => RackEnd::SinkFault,
    }
}

// Lends a link and an outlet to a terminal for a line.
fn line_at<L: CardLink, O: Outlet>(
    terminal: &mut Terminal,
    link: &mut L,
    outlet: &mut O,
    line: TakenLine<'_>,
) -> LineEnd
    requires live { IsTrue (L.is_live link.old) }
    ensures ends { (m : Machine) → L.is_at link.old m → Knows terminal.old.transaction m
        → EndsSo (λ (p : L × O) m. L.is_at p.0 m) (λ (p : L × O). O.given p.1) m (line_effect statement_lines (terminal_at m terminal.old.channel) line.entry.octets.now) (rows_in (terminal_at m terminal.old.channel) (statement_of line.entry.octets.now))
        (refusal_in (terminal_at m terminal.old.channel) (statement_of line.entry.octets.now)) terminal.new result (link.old, outlet.old) (link.new, outlet.new) }
    ensures ends_by { lines.EndsBy (λ (p : L × O). L.is_live p.0) (λ (p : L × O). L.faults p.0) (λ (p : L × O). O.sink_faults p.1) result (link.old, outlet.old) (link.new, outlet.new) }
{
    let mut desk = RackDesk { link, outlet };
    terminal.line(&mut desk, line)
}

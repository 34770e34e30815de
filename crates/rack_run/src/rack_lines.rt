// The lines of a rack, as a person is told of them.
ghost use Rattle.std.specs.Prelude.{◌≡◌};
ghost use Rattle.rack_run.specs.RackGrammar as grammar;

use guide::{Cells, Dialect, Grammar, Message, Statements, note_of};
use reader_rack::{RackStatement, rack_statement};
use scql_base::StatusWord;
use script::Tokens;
use taken_line::TakenLine;

/// How many readers a rack has.
const READERS: usize = 4;

/// What is known of each reader's card, and which reader is current.
#[derive(Drop)]
pub(crate) struct RackLines {
    readers: [Statements; READERS],
    current: usize,
}

impl RackLines {
    /// Cards that were just opened. Reader 1 is current.
    pub(crate) fn new() -> RackLines {
        RackLines {
            readers: [
                Statements::new(),
                Statements::new(),
                Statements::new(),
                Statements::new(),
            ],
            current: 1,
        }
    }

    fn statements(&self) -> &Statements {
        &self.readers[self.current % READERS]
    }
}

impl Grammar for RackLines {
    ghost use Rattle.rack_run.specs.RackGrammar.{rack_fault};

    ghost fault_of = { λ _ line. rack_fault line };

    fn fault_place(&self, line: TakenLine<'_>) -> Option<usize> {
        if is_begun(line.octets) {
            return Some(line.octets.len());
        }
        if rack_statement(line.octets).is_some() {
            return None;
        }
        self.statements().fault_place(line)
    }
}

impl Dialect for RackLines {
    fn kind(&self) -> &'static [u8] {
        self.statements().kind()
    }

    fn help(&self) -> &'static [u8] {
        self.statements().help()
    }

    fn before(&self, line: TakenLine<'_>, message: &mut Message) {
        self.statements().before(line, message);
    }

    fn done(&mut self, line: TakenLine<'_>, message: &mut Message) {
        match rack_statement(line.octets) {
            Some(RackStatement::Select { reader }) => self.current = usize::from(reader),
            Some(RackStatement::Eject { .. }) => {}
            None => match help_on_own(line.octets) {
                Some(text) => message.put(text),
                None => {
                    self.readers[self.current % READERS].done(line, message);
                    put_own(line.octets, message);
                }
            },
        }
    }

    fn refused(
        &self,
        line: TakenLine<'_>,
        word: StatusWord,
        cells: Option<Cells>,
        message: &mut Message,
    ) {
        self.statements().refused(line, word, cells, message);
    }
}

// Whether a line is the word of one of the rack's own statements alone.
fn is_begun(line: &[u8]) -> bool
    ensures { result ≡ grammar.is_begun line.now }
{
    let mut tokens = Tokens::new(line);
    let word = tokens.next();
    tokens.skip();
    tokens.is_at_end() && matches!(word, b"READER" | b"EJECT")
}

// The grammar of one of the rack's own statements, where a note asks for it.
fn help_on_own(line: &[u8]) -> Option<&'static [u8]> {
    let (word, subject) = note_of(line)?;
    if word.as_slice() != b"HELP".as_slice() {
        return None;
    }
    match subject.as_slice() {
        b"READER" => Some(
            b"READER (1 | 2 | 3 | 4)                         lines are for this reader's card from here on",
        ),
        b"EJECT" => Some(
            b"EJECT (1 | 2 | 3 | 4)                          takes the card out of this reader",
        ),
        _ => None,
    }
}

// Puts the rack's own statements behind all others, where a note asks for these.
fn put_own(line: &[u8], message: &mut Message) {
    if let Some((word, subject)) = note_of(line) {
        if word.as_slice() == b"HELP".as_slice() && subject.is_empty() {
            message.put(
                b"\n  READER 2   EJECT 2    of the rack: lines are for reader 2's card; its card is taken out",
            );
        }
    }
}

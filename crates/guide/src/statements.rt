// The statements of a terminal.
use crate::note::put_note;
use crate::refusal::put_refusal;
use crate::session::Session;
use crate::{Cells, Dialect, Grammar, Message};
use scql_base::{NameList, Operation, StatusWord};
use script::{ScriptFault, Statement};
use taken_line::TakenLine;

/// The statements of a terminal, and what is known of its card from those that were carried out.
#[derive(Drop)]
pub struct Statements {
    session: Session,
    /// Whether it was told that OWNER has no secret.
    is_warned: bool,
}

impl Statements {
    /// Those of a terminal on channel 0, where nobody is presented.
    pub fn new() -> Statements {
        Statements {
            session: Session::new(),
            is_warned: false,
        }
    }

    // Says that whoever holds the card owns what OWNER makes, once.
    fn warn(&mut self, statement: &Statement, message: &mut Message) {
        if self.is_warned || !self.session.is_owner() {
            return;
        }
        let made: &'static [u8] = match statement {
            Statement::Single { operation } => match operation {
                Operation::CreateTable { .. } => b"table",
                Operation::CreateView { .. } => b"view",
                Operation::CreateDictionary { .. } => b"dictionary",
                _ => return,
            },
            _ => return,
        };
        self.is_warned = true;
        message.put(b"note: OWNER has no secret, so whoever holds the card owns this ");
        message.put(made);
    }
}

// Reads the statement of a line into a place, and tells whether it is one.
fn is_read(line: TakenLine<'_>, place: &mut Statement) -> bool {
    Statement::read_into(line, place).is_ok()
}

fn put_names(names: &NameList, message: &mut Message) {
    for (i, name) in names.as_slice().iter().enumerate() {
        if i > 0 {
            message.put(b", ");
        }
        message.put(name.octets());
    }
}

impl Grammar for Statements {
    ghost use Rattle.script.specs.Line.{statement_of};
    ghost use Rattle.guide.specs.Standing.{place_of};

    ghost fault_of = { λ _ line. place_of (statement_of line) };

    fn fault_place(&self, line: TakenLine<'_>) -> Option<usize> {
        let mut statement = Statement::Blank;
        match Statement::read_into(line, &mut statement) {
            Err(ScriptFault::At { place }) => Some(usize::from(place)),
            Ok(()) | Err(ScriptFault::TooLarge) => None,
        }
    }
}

impl Dialect for Statements {
    fn kind(&self) -> &'static [u8] {
        b"statement"
    }

    fn help(&self) -> &'static [u8] {
        b"#help lists the statements"
    }

    #[inline(never)]
    fn before(&self, line: TakenLine<'_>, message: &mut Message) {
        let mut statement = Statement::Blank;
        if !is_read(line, &mut statement) {
            return;
        }
        if let Statement::Select { columns, .. } = &statement {
            put_names(columns, message);
        }
    }

    #[inline(never)]
    fn done(&mut self, line: TakenLine<'_>, message: &mut Message) {
        put_note(line.octets, message);
        let mut statement = Statement::Blank;
        if is_read(line, &mut statement) {
            self.warn(&statement, message);
            self.session.follow(&statement);
        }
    }

    #[inline(never)]
    fn refused(
        &self,
        line: TakenLine<'_>,
        word: StatusWord,
        cells: Option<Cells>,
        message: &mut Message,
    ) {
        let mut statement = Statement::Blank;
        if is_read(line, &mut statement) {
            put_refusal(&self.session, &statement, word, cells, message);
        }
    }
}

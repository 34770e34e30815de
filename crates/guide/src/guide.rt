// What a session tells a person beside its output.
ghost use Rattle.person.specs.Showing.{ShowsSome};

use crate::fault::put_fault;
use crate::lines::Lines;
use crate::size::put_too_large;
use crate::{Cells, Dialect, Message, Occasion, Why};
use person::{Person, Presence};
use script::ScriptFault;
use taken_line::TakenLine;

/// What a session tells a person beside its output. Nothing is told where nobody is there.
#[derive(Drop)]
pub struct Guide<D: Dialect + Drop> {
    dialect: D,
    lines: Lines,
}

impl<D: Dialect + Drop> Guide<D> {
    /// A session over lines of a dialect, of which none came yet.
    pub fn new(dialect: D, presence: Presence) -> Guide<D> {
        Guide {
            dialect,
            lines: Lines::new(presence),
        }
    }

    /// Tells a person of an occasion.
    pub fn tell<P: Person>(&mut self, occasion: Occasion<'_>, person: &mut P)
        ensures { ShowsSome P.lost P.shown person.old person.new }
    {
        self.count(&occasion);
        if !self.lines.is_watched() {
            person.show(b"");
            return;
        }
        if self.is_titled(&occasion) {
            person.show_title();
        } else {
            person.show(b"");
        }
        self.show_message(occasion, person);
    }

    fn count(&mut self, occasion: &Occasion<'_>) {
        match occasion {
            Occasion::Line { .. } => self.lines.see(),
            Occasion::Outcome { why: Some(_), .. } => self.lines.refuse(),
            _ => {}
        }
    }

    // What the session goes over is called by its title, to one who types, where its cells are told.
    fn is_titled(&self, occasion: &Occasion<'_>) -> bool {
        self.lines.presence == Presence::Typing
            && matches!(occasion, Occasion::Start { cells: Some(_) })
    }

    // In a function of its own that isn't inlined: what it clears as it is entered is then cleared only where somebody is there.
    #[inline(never)]
    fn show_message<P: Person>(&mut self, occasion: Occasion<'_>, person: &mut P)
        ensures { ShowsSome P.lost P.shown person.old person.new }
    {
        let mut message = Message::new();
        self.put(occasion, &mut message);
        person.show(message.as_slice());
    }

    fn put(&mut self, occasion: Occasion<'_>, message: &mut Message) {
        match occasion {
            Occasion::Start { cells } => self.put_greeting(cells, message),
            Occasion::Line { line } => self.put_foreword(line, message),
            Occasion::Outcome { line, why, cells } => self.put_afterword(line, why, cells, message),
            Occasion::Message { message: text } => message.put(text.as_slice()),
            Occasion::End { whole } => self.put_end(whole, message),
        }
    }

    // Says, to one who types, what the session goes over and how it is left.
    fn put_greeting(&self, cells: Option<Cells>, message: &mut Message) {
        if self.lines.presence != Presence::Typing {
            return;
        }
        if let Some(cells) = cells {
            message.put(b": ");
            message.put_number(usize::from(cells.all));
            message.put(b" cells, ");
            message.put_number(usize::from(cells.used));
            message.put(b" used. ");
        }
        message.put(self.dialect.help());
        message.put(b"; ^D (end of input) leaves.\n");
    }

    fn put_foreword(&self, line: Option<TakenLine<'_>>, message: &mut Message) {
        self.lines.put_margin(message);
        let margin = message.len();
        if let Some(line) = line {
            self.dialect.before(line, message);
        }
        end(message, margin);
    }

    fn put_afterword(
        &mut self,
        line: Option<TakenLine<'_>>,
        why: Option<Why>,
        cells: Option<Cells>,
        message: &mut Message,
    ) {
        self.lines.put_margin(message);
        let margin = message.len();
        match line {
            Some(line) => self.put_what_came(line, why, cells, message),
            None => message.put(b"a line has at most 1,000 octets"),
        }
        end(message, margin);
    }

    fn put_what_came(
        &mut self,
        line: TakenLine<'_>,
        why: Option<Why>,
        cells: Option<Cells>,
        message: &mut Message,
    ) {
        match why {
            None => self.dialect.done(line, message),
            Some(Why::Word { word }) => self.dialect.refused(line, word, cells, message),
            Some(
                Why::Fault {
                    fault: ScriptFault::At { place },
                },
            ) => put_fault(&self.dialect, line.octets, usize::from(place), message),
            Some(
                Why::Fault {
                    fault: ScriptFault::TooLarge,
                },
            ) => put_too_large(line.octets, message),
            Some(Why::TooLong) => message.put(b"a line has at most 1,000 octets"),
            Some(Why::NoCard) => message.put(b"this reader has no card that answers"),
            Some(Why::TooMany) => message.put(
                b"more than 100,000 combinations are kept; a further equality leaves fewer",
            ),
        }
    }

    // Says how many lines were refused, where all of them were read.
    fn put_end(&self, whole: bool, message: &mut Message) {
        if whole {
            self.lines.put_end(self.dialect.kind(), message);
        }
    }
}

// Ends a message with its line feed, or leaves none where only its margin is there.
fn end(message: &mut Message, margin: usize) {
    if message.len() <= margin {
        message.clear();
    } else {
        message.put(b"\n");
    }
}

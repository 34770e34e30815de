// What a session over queries tells a person beside its output.
use guide::{Cells, Dialect, Grammar, Message, note_of, put_word};
use query::Query;
use scql_base::{Copied, Name, StatusWord};
use script::{ScriptFault, Tokens};
use taken_line::TakenLine;

/// The queries of a session, and for whom they are.
#[derive(Drop)]
pub struct Queries {
    user: Name,
}

impl Queries {
    pub(crate) fn new(user: &Name) -> Queries {
        Queries { user: user.copy() }
    }
}

impl Grammar for Queries {
    ghost use Rattle.query.specs.Line.{query_of};
    ghost use Rattle.guide.specs.Standing.{place_of};

    ghost fault_of = { λ _ line. place_of (query_of line) };

    fn fault_place(&self, line: TakenLine<'_>) -> Option<usize> {
        match Query::read(line) {
            Err(ScriptFault::At { place }) => Some(usize::from(place)),
            Ok(_) | Err(ScriptFault::TooLarge) => None,
        }
    }
}

impl Dialect for Queries {
    fn kind(&self) -> &'static [u8] {
        b"query"
    }

    fn help(&self) -> &'static [u8] {
        b"#help lists what a query is"
    }

    #[inline(never)]
    fn before(&self, line: TakenLine<'_>, message: &mut Message) {
        if Query::read(line).is_ok() {
            put_columns(line.octets, message);
        }
    }

    fn done(&mut self, line: TakenLine<'_>, message: &mut Message) {
        if let Some((word, _)) = note_of(line.octets) {
            match word.as_slice() {
                b"HELP" => message.put(HELP),
                b"WORDS" => message.put(WORDS),
                _ => {}
            }
        }
    }

    #[inline(never)]
    fn refused(
        &self,
        line: TakenLine<'_>,
        word: StatusWord,
        cells: Option<Cells>,
        message: &mut Message,
    ) {
        let _ = cells;
        match word {
            StatusWord::NOT_FOUND => self.put_not_found(line, message),
            StatusWord::SECURITY_NOT_SATISFIED => {
                message.put(b"not allowed: ");
                message.put(self.user.octets());
                message.put(b" may not read one of these objects");
            }
            _ => put_other(word, message),
        }
    }
}

impl Queries {
    fn put_not_found(&self, line: TakenLine<'_>, message: &mut Message) {
        message.put(b"not found: ");
        message.put(self.user.octets());
        message.put(b" sees no object ");
        put_objects(line, message);
        message.put(
            b", or it has no column of that name; a user with a secret sees what PUBLIC sees",
        );
    }
}

// The columns that are selected, as the line has them.
fn put_columns(line: &[u8], message: &mut Message) {
    let mut tokens = Tokens::new(line);
    tokens.skip();
    for _ in 0..line.len() {
        match tokens.next() {
            b"FROM" => return,
            b"," => message.put(b", "),
            token => message.put(token),
        }
        tokens.skip();
    }
}

// The objects of a query, `A, B or C`.
fn put_objects(line: TakenLine<'_>, message: &mut Message) {
    let Ok(query) = Query::read(line) else {
        return;
    };
    let last = query.objects.len().saturating_sub(1);
    for (i, asked) in query.objects.as_slice().iter().enumerate() {
        if i > 0 {
            message.put(if i == last {
                b" or ".as_slice()
            } else {
                b", ".as_slice()
            });
        }
        message.put(asked.object.octets());
    }
}

fn put_other(word: StatusWord, message: &mut Message) {
    message.put(b"the card answered ");
    put_word(word.word, message);
    message.put(b" (docs/PROFILE.md)");
}

/// What is said where the card refuses a user by this word.
pub(crate) fn user_refused(user: &Name, word: StatusWord) -> Message {
    let mut message = Message::new();
    match word {
        StatusWord::NOT_FOUND => {
            message.put(b"not found: no user ");
            message.put(user.octets());
        }
        _ => put_other(word, &mut message),
    }
    message.put(b"\n");
    message
}

const HELP: &[u8] =
    b"SELECT ITEM.NAME, MAKER.CITY FROM ITEM, MAKER WHERE ITEM.MAKER = MAKER.CODE ORDER BY MAKER.CITY
  FROM names two or three tables or views. WHERE and ORDER BY may be left out. A column stands with its object.
  SELECT and ORDER BY have up to 15 columns, WHERE up to 8 equalities, with AND between them.
  Words in capital letters. Notes begin with #. #words tells what a status word means.";

const WORDS: &[u8] = b"6A88  an object isn't there, or not for this user, or it lacks a column
  6982  this user may not read it";

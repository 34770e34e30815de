// Notes that ask for help.
use crate::Message;
use crate::help::{STATEMENTS, TABLES, WORDS, grammar_of};
use crate::token::{Word, after_blanks, behind_piece, in_capitals, piece_of};

/// What a note is asked for: the word behind `#`, and the one behind that, in capital letters.
pub fn note_of(line: &[u8]) -> Option<(Word, Word)> {
    let [b'#', note @ ..] = after_blanks(line) else {
        return None;
    };
    let note = after_blanks(note);
    let subject = piece_of(after_blanks(behind_piece(note)));
    Some((in_capitals(piece_of(note)), in_capitals(subject)))
}

/// Puts what a note asks for.
#[inline(never)]
pub(crate) fn put_note(line: &[u8], message: &mut Message) {
    let Some((word, subject)) = note_of(line) else {
        return;
    };
    match word.as_slice() {
        b"HELP" => put_help(subject.as_slice(), message),
        b"WORDS" => message.put(WORDS),
        _ => {}
    }
}

fn put_help(subject: &[u8], message: &mut Message) {
    match subject {
        b"" => message.put(STATEMENTS),
        b"TABLES" => message.put(TABLES),
        b"WORDS" => message.put(WORDS),
        _ => match grammar_of(subject) {
            Some(grammar) => message.put(grammar),
            None => {
                message.put(b"no statement begins with ");
                message.put(subject);
                message.put(b"; #help lists them");
            }
        },
    }
}

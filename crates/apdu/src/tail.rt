// What stands behind P2 of a command: a data field or none, and Le or none (ISO/IEC 7816-4, the four cases).
ghost use Rattle.std.specs.Prelude.{◌≡◌, ◌≤◌, not, ◌&&◌, ◌||◌, length, IfSome, IfOk, option_map};
ghost use Rattle.scql_model.specs.Form as form;
ghost use Rattle.apdu.specs.Reading.{seen, tail_view};

use scql_base::{Command, StatusWord, Takes};

/// A data field, where there is one, and Le, where there is one.
#[derive(Drop)]
pub(crate) struct Tail<'a> {
    pub body: Option<&'a [u8]>,
    pub le: Option<u16>,
}

impl<'a> Tail<'a> {
    // The data field, which has no octets where there is none.
    pub(crate) fn field(&self) -> &'a [u8]
        ensures { result.now ≡ form.data_in (tail_view self.now) }
    {
        match self.body {
            Some(body) => body,
            None => &[],
        }
    }
}

fn tail_of(after: &[u8]) -> Option<Tail<'_>>
    ensures tail { option_map tail_view result ≡ form.tail_of after.now }
    ensures short { IfSome result (λ tail. length (form.data_in (tail_view tail)) ≤ 255) }
{
    match after {
        [] => Some(Tail {
            body: None,
            le: None,
        }),
        [le] => Some(Tail {
            body: None,
            le: Some(le_of(*le)),
        }),
        [0, ..] => None,
        [lc, rest @ ..] => split_tail(*lc, rest),
    }
}

// Lc, the data and maybe Le.
fn split_tail(lc: u8, rest: &[u8]) -> Option<Tail<'_>>
    ensures tail { option_map tail_view result ≡ form.data_of lc rest.now }
    ensures short { IfSome result (λ tail. length (form.data_in (tail_view tail)) ≤ lc) }
{
    let count = lc as usize;
    if rest.len() == count {
        return Some(Tail {
            body: Some(rest),
            le: None,
        });
    }
    if rest.len() == count + 1 {
        return Some(Tail {
            body: Some(&rest[..count]),
            le: Some(le_of(rest[count])),
        });
    }
    None
}

fn le_of(octet: u8) -> u16
    ensures { result ≡ form.le_of octet }
{
    match octet {
        0 => Command::LARGEST_LE,
        _ => octet as u16,
    }
}

// What stands behind P2, in a case that the operation takes. A part of a command takes case 3 alone.
pub(crate) fn taken_in(takes: Takes, is_part: bool, after: &[u8]) -> Result<Tail<'_>, StatusWord>
    ensures tail { seen tail_view result ≡ form.taken_in takes is_part after.now }
    ensures short { IfOk result (λ tail. length (form.data_in (tail_view tail)) ≤ 255) }
{
    let tail = tail_of(after).ok_or(StatusWord::WRONG_LENGTH)?;
    if is_taken(takes, is_part, &tail) {
        Ok(tail)
    } else {
        Err(StatusWord::WRONG_LENGTH)
    }
}

fn is_taken(takes: Takes, is_part: bool, tail: &Tail<'_>) -> bool
    ensures { result ≡ (form.takes_case takes (tail_view tail.now) && (not is_part || form.is_case_3 (tail_view tail.now))) }
{
    let has_body = tail.body.is_some();
    let has_le = tail.le.is_some();
    match takes {
        Takes::Nothing => !is_part && !has_body,
        Takes::DataField => has_body && !(is_part && has_le),
        Takes::LeAlone => !is_part && !has_body && has_le,
    }
}

// The moves that hand out a row.
ghost use Rattle.std.specs.Prelude.{◌≡◌, ◌≤◌, List, IfOk, IfSome, IsTrue, OnErr};
ghost use Rattle.eeprom.specs.Chip.{Becomes};
ghost use Rattle.scql_base.specs.Words as words;
ghost use Rattle.scql_base.specs.declared.cursor.Cursor.{Cursor};
ghost use Rattle.scql_model.specs.Moves.{gave, gave_next, row_behind};
ghost use Rattle.scql_model.specs.Objects.{StampedRow};
ghost use Rattle.scql_model.specs.ReadBound.{place_reached};
ghost use Rattle.cursor.specs.Costs.{RisesBetween, cost_at, cost_between, least_read, size_handed};
ghost use Rattle.cursor.specs.Feed.{ReadsRows, Stays};
ghost use Rattle.cursor.specs.Moved as moved;

use crate::RowFeed;
use crate::moving::place_of;
use eeprom::EepromFault;
use scql_base::{Place, Row, StatusWord};

/// FETCH: hands out the row at the cursor's place, where it is still there and Le allows it. The caller gives it as far as Le allows.
pub fn fetch<F: RowFeed>(
    feed: &mut F,
    place: &Place,
    le: u16,
    out: &mut Row,
) -> Result<StatusWord, EepromFault>
    ensures fetched { IfOk result (λ word. (rows : List StampedRow) → F.tells feed.old rows
        → (c : Cursor) → moved.fetched place.now c le word out.new ≡ gave c le place.now rows) }
    ensures reads { ReadsRows F.tells F.costs F.kept F.chip F.octets_read F.faults feed.old feed.new result (λ word. least_read word out.new) (λ _. cost_at place.now) }
{
    match *place {
        Place::NotOpen => Ok(StatusWord::CONDITIONS_NOT_SATISFIED),
        Place::End => Ok(StatusWord::END_REACHED),
        Place::At { stamp } => {
            let there = feed.row_at(stamp, out)?;
            Ok(word_of(there, out, le))
        }
    }
}

/// FETCH NEXT: hands out the next row, where Le allows it, and the cursor goes there; where there is none it goes to its end.
/// After a refusal or a fault it stays where it was.
pub fn fetch_step<F: RowFeed>(
    feed: &mut F,
    place: &mut Place,
    le: u16,
    out: &mut Row,
) -> Result<StatusWord, EepromFault>
    ensures fetched { IfOk result (λ word. (rows : List StampedRow) → F.tells feed.old rows
        → (c : Cursor) → moved.fetched place.new c le word out.new ≡ gave_next c le (row_behind place.old rows)) }
    ensures refused { IfOk result (λ word. IsTrue (moved.refuses word) → place.new ≡ place.old) }
    ensures fault { OnErr result (place.new ≡ place.old) }
    ensures read { IfOk result (λ word. (rows : List StampedRow) → F.tells feed.old rows → IfSome (F.costs feed.old)
        (λ costs. Becomes (RisesBetween (least_read word out.new) (cost_between place.old (place_reached (row_behind place.old rows)) costs))
        (F.octets_read feed.old) (F.octets_read feed.new))) }
    ensures stays { Stays F.tells F.costs F.kept F.chip F.faults feed.old feed.new result }
{
    let next = next_handed(feed, *place, out)?;
    let word = next_word(next, out, le);
    if !refuses(word) {
        *place = place_of(next);
    }
    Ok(word)
}

// Hands out the row behind a place, and answers its stamp, if there is one. Where a cursor isn't opened there is none.
fn next_handed<F: RowFeed>(
    feed: &mut F,
    place: Place,
    out: &mut Row,
) -> Result<Option<u32>, EepromFault>
    ensures next { IfOk result (λ next. (rows : List StampedRow) → F.tells feed.old rows → moved.row_handed next out.new ≡ row_behind place rows) }
    ensures reads { ReadsRows F.tells F.costs F.kept F.chip F.octets_read F.faults feed.old feed.new result (λ next. size_handed next out.new) (λ next. cost_between place (moved.place_at next)) }
{
    match place {
        Place::At { stamp } => feed.next_row(stamp, out),
        Place::NotOpen | Place::End => Ok(None),
    }
}

// The word for the next row, if there is one.
fn next_word(next: Option<u32>, row: &Row, le: u16) -> StatusWord
    ensures given { (c : Cursor) → moved.fetched (moved.place_at next) c le result row.now ≡ gave_next c le (moved.row_handed next row.now) }
    ensures least { least_read result row.now ≤ size_handed next row.now }
{
    match next {
        Some(_) => word_of(true, row, le),
        None => StatusWord::END_REACHED,
    }
}

// The word for a row that is there or isn't: one that is longer than Le is refused, but where Le is 256.
fn word_of(there: bool, row: &Row, le: u16) -> StatusWord
    ensures { result ≡ moved.fetch_word there row.now le }
{
    if !there {
        return StatusWord::RECORD_NOT_FOUND;
    }
    let size = row.octets().len();
    if size <= usize::from(le) || le == 256 {
        return StatusWord::DONE;
    }
    wrong_le(size)
}

fn wrong_le(size: usize) -> StatusWord
    ensures { result ≡ words.wrong_le size }
{
    let available = if size < 256 { size as u16 } else { 0 };
    StatusWord {
        word: 0x6C00 + available,
    }
}

fn refuses(word: StatusWord) -> bool
    ensures { result ≡ moved.refuses word }
{
    word.word != StatusWord::DONE.word && word.word != StatusWord::END_REACHED.word
}

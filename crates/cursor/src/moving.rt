// The moves that hand out no row.
ghost use Rattle.std.specs.Prelude.{◌≡◌, List, IfOk, OnErr};
ghost use Rattle.scql_base.specs.declared.cursor.Cursor.{Cursor};
ghost use Rattle.scql_model.specs.Moves.{first_row, row_behind, moved_to, went_to};
ghost use Rattle.scql_model.specs.Objects.{StampedRow};
ghost use Rattle.scql_model.specs.ReadBound.{place_reached};
ghost use Rattle.cursor.specs.Costs.{cost_between};
ghost use Rattle.cursor.specs.Feed.{ReadsRows};
ghost use Rattle.cursor.specs.Moved as moved;

use crate::RowFeed;
use eeprom::EepromFault;
use scql_base::{Place, StatusWord};

/// OPEN: the cursor goes to the first row, or to its end where there is none. After a fault it stays where it was.
pub fn first<F: RowFeed>(feed: &mut F, place: &mut Place) -> Result<StatusWord, EepromFault>
    ensures moved { IfOk result (λ word. (rows : List StampedRow) → F.tells feed.old rows → moved.AreStamped rows
        → (c : Cursor) → moved_to place.new c word ≡ went_to c (first_row rows)) }
    ensures fault { OnErr result (place.new ≡ place.old) }
    ensures reads { ReadsRows F.tells F.costs F.kept F.chip F.octets_read F.faults feed.old feed.new result (λ _. 0) (λ _. cost_between (Place.At 0) place.new) }
{
    *place = place_behind(feed, Place::At { stamp: 0 })?;
    Ok(word_at(*place))
}

/// NEXT: the cursor goes to the next row, or to its end where there is none. After a fault it stays where it was.
pub fn step<F: RowFeed>(feed: &mut F, place: &mut Place) -> Result<StatusWord, EepromFault>
    ensures moved { IfOk result (λ word. (rows : List StampedRow) → F.tells feed.old rows
        → (c : Cursor) → moved_to place.new c word ≡ went_to c (row_behind place.old rows)) }
    ensures fault { OnErr result (place.new ≡ place.old) }
    ensures reads { ReadsRows F.tells F.costs F.kept F.chip F.octets_read F.faults feed.old feed.new result (λ _. 0) (λ _. cost_between place.old place.new) }
{
    *place = place_behind(feed, *place)?;
    Ok(word_at(*place))
}

// The place of the next row, or the end where there is none. Where a cursor isn't opened there is none.
fn place_behind<F: RowFeed>(feed: &mut F, place: Place) -> Result<Place, EepromFault>
    ensures reached { IfOk result (λ reached. (rows : List StampedRow) → F.tells feed.old rows → reached ≡ place_reached (row_behind place rows)) }
    ensures reads { ReadsRows F.tells F.costs F.kept F.chip F.octets_read F.faults feed.old feed.new result (λ _. 0) (λ reached. cost_between place reached) }
{
    match place {
        Place::At { stamp } => {
            let next = feed.next_after(stamp)?;
            Ok(place_of(next))
        }
        Place::NotOpen | Place::End => Ok(Place::End),
    }
}

/// The place of the row of a stamp, and the end where there is none.
pub(crate) fn place_of(stamp: Option<u32>) -> Place
    ensures { result ≡ moved.place_at stamp }
{
    match stamp {
        Some(stamp) => Place::At { stamp },
        None => Place::End,
    }
}

fn word_at(place: Place) -> StatusWord
    ensures { result ≡ moved.word_at place }
{
    match place {
        Place::At { .. } => StatusWord::DONE,
        Place::NotOpen | Place::End => StatusWord::END_REACHED,
    }
}

// A cursor goes over the rows that it chooses.
ghost use Rattle.std.specs.Prelude.{List, IfOk, IfSome};
ghost use Rattle.eeprom.specs.Chip.{Becomes};
ghost use Rattle.eeprom.specs.Fault.{each_error};
ghost use Rattle.scql_base.specs.declared.cursor.Cursor.{Cursor};
ghost use Rattle.scql_base.specs.declared.words.Actor.{Actor};
ghost use Rattle.scql_model.specs.Cursors.{IsCursorOf};
ghost use Rattle.scql_model.specs.Database.{Database};
ghost use Rattle.scql_model.specs.Objects.{StampedRow};
ghost use Rattle.cursor.specs.Costs.{RisesBetween};
ghost use Rattle.cursor.specs.Feed as feed;
ghost use Rattle.cursor.specs.Moved.{AreStamped};
ghost use Rattle.db_read.specs.Advanced.{Advances};
ghost use Rattle.db_read.specs.Motion.{Goes, KeepsPlace, cost_by, least_by};
ghost use Rattle.db_read.specs.Reader.{read_so_far, ReadsFrom, ReadsOn};
ghost use Rattle.db_read.specs.Scan.{IsChosenFor};

use crate::chosen::Chosen;
use crate::feed::{ChosenRows, ToldRows};
use crate::motion::Motion;
use crate::reader::Reader;
use crate::scan::{Choice, RowRoom};
use crate::telling::Told;
use cursor::{RowFeed, fetch, fetch_step, first, step};
use eeprom::{Eeprom, EepromFault};
use scql_base::{Place, Row, StatusWord};

/// A cursor goes over the rows that it chooses, from its place to another.
pub(crate) fn go<B: Eeprom>(
    reader: &mut Reader<'_, B>,
    choice: &Choice,
    motion: Motion,
    place: &mut Place,
    out: &mut Row,
    room: &mut RowRoom,
) -> Result<StatusWord, EepromFault>
    ensures advances { (db : Database) (actor : Actor) (c : Cursor) → ReadsFrom reader.old db → IsCursorOf db c → IsChosenFor db actor c choice.now
        → IfOk result (λ word. Advances db actor c motion place.old place.new word out.new (read_so_far reader.old) (read_so_far reader.new)) }
    ensures stays { IfOk result (KeepsPlace motion place.old place.new) }
    ensures reads { ReadsOn each_error reader.old reader.new result }
{
    if let Some(told) = Told::of(choice) {
        let mut rows = ToldRows { reader, told };
        return move_over(&mut rows, motion, place, out);
    }
    let chosen = Chosen::of(choice);
    let mut rows = ChosenRows {
        reader,
        chosen,
        room,
    };
    move_over(&mut rows, motion, place, out)
}

// A motion over the rows of a feed.
#[inline(always)]
fn move_over<F: RowFeed>(
    rows: &mut F,
    motion: Motion,
    place: &mut Place,
    out: &mut Row,
) -> Result<StatusWord, EepromFault>
    ensures goes { IfOk result (λ word. (told : List StampedRow) → F.tells rows.old told → AreStamped told → (c : Cursor) → Goes motion place.old place.new word out.new told c) }
    ensures stays { IfOk result (KeepsPlace motion place.old place.new) }
    ensures read { IfOk result (λ word. (told : List StampedRow) → F.tells rows.old told → IfSome (F.costs rows.old)
        (λ costs. Becomes (RisesBetween (least_by motion word out.new) (cost_by motion place.old place.new told costs)) (F.octets_read rows.old) (F.octets_read rows.new))) }
    ensures rest { feed.Stays F.tells F.costs F.kept F.chip F.faults rows.old rows.new result }
{
    match motion {
        Motion::Open => first(rows, place),
        Motion::Next => step(rows, place),
        Motion::Fetch { le } => fetch(rows, place, le, out),
        Motion::FetchNext { le } => fetch_step(rows, place, le, out),
    }
}

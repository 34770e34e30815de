// A cursor moves: OPEN, NEXT, FETCH and FETCH NEXT.
ghost use Rattle.std.specs.Prelude.{◌≡◌, IfSome, OnErr};
ghost use Rattle.eeprom.specs.Fault.{each_error};
ghost use Rattle.scql_model.specs.Cursors.{IsCursorOf};
ghost use Rattle.scql_model.specs.Database.{Database};
ghost use Rattle.db_read.specs.Advanced.{AnswersMotion};
ghost use Rattle.db_read.specs.Reader.{read_so_far, ReadsFrom, ReadsOn};
ghost use Rattle.db_read.specs.Scan.{IsRightFor};

use crate::choosing::choose;
use crate::going::go;
use crate::motion::Motion;
use crate::reader::Reader;
use crate::scan::Scan;
use eeprom::{Eeprom, EepromFault};
use scql_base::{Actor, Cursor, Row, StatusWord};

/// The cursor of a session moves over the rows that it chooses of its object, from which the actor may select. A row is handed out where
/// the motion asks for one; the caller gives it as far as Le allows. What a scan has found isn't looked for again.
pub fn advance<B: Eeprom>(
    reader: &mut Reader<'_, B>,
    actor: Actor,
    cursor: &mut Option<Cursor>,
    motion: Motion,
    out: &mut Row,
    scan: &mut Scan,
) -> Result<StatusWord, EepromFault>
    ensures answers { (db : Database) → ReadsFrom reader.old db → IfSome cursor.old (IsCursorOf db) → IsRightFor db actor scan.old cursor.old
        → AnswersMotion db actor motion cursor.old cursor.new out.new (read_so_far reader.old) (read_so_far reader.new) result }
    // A fault leaves the cursor.
    ensures fault { OnErr result (cursor.new ≡ cursor.old) }
    // The scan stays right: for the cursor as it is afterwards.
    ensures right { (db : Database) → ReadsFrom reader.old db → IsRightFor db actor scan.old cursor.old → IsRightFor db actor scan.new cursor.new }
    ensures reads { ReadsOn each_error reader.old reader.new result }
{
    let Some(held) = cursor else {
        return Ok(StatusWord::CONDITIONS_NOT_SATISFIED);
    };
    if !motion.goes_from(held.place) {
        return Ok(StatusWord::CONDITIONS_NOT_SATISFIED);
    }
    if !scan.has_found() {
        if let Err(stop) = choose(reader, actor, held, scan) {
            return stop.answer();
        }
    }
    let Scan { choice, room, .. } = scan;
    let mut place = held.place;
    let word = go(reader, choice, motion, &mut place, out, room)?;
    held.place = place;
    Ok(word)
}

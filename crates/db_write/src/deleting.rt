// DELETE.
ghost use Rattle.std.specs.Prelude.{◌≡◌};
ghost use Rattle.record_store.specs.declared.side.Side.TheVariants.{Working};
ghost use Rattle.scql_model.specs.Database.{Database};
ghost use Rattle.scql_model.specs.Writing.{row_deleted};
ghost use Rattle.record_table.specs.Making.{IsHeld};
ghost use Rattle.row_table.specs.Tables.{EndedBy, InTransaction, Stand};
ghost use Rattle.db_read.specs.Scan.{IsRightFor};
ghost use Rattle.db_write.specs.Reached.{IsThrough};

use crate::reaching::{find_row, find_written, opened};
use db_read::Scan;
use eeprom::Eeprom;
use privilege_table::Privilege;
use record_table::{Stop, refused};
use row_table::Tables;
use scql_base::{Actor, Cursor, StatusWord};

/// DELETE: takes out the row of a table at which a cursor stands. The index follows. What a scan has found isn't looked for again.
pub fn delete<B: Eeprom>(
    tables: &mut Tables,
    bench: &mut B,
    actor: Actor,
    cursor: &Option<Cursor>,
    scan: &mut Scan,
) -> Result<(), Stop>
    requires open { InTransaction tables.old (B.chip bench.old) }
    requires right { (db : Database) → IsHeld tables.old.store Working (B.chip bench.old) db → IsRightFor db actor scan.old cursor.now }
    ensures ended { EndedBy B.chip B.faults (λ _. Unit {0}) (λ db. IsThrough db (row_deleted db actor) cursor.now) bench.old bench.new tables.old tables.new result }
    // Nothing is written yet, so the tables stand after a fault too.
    ensures stand { Stand tables.new (B.chip bench.new) }
    ensures scan_same { scan.new ≡ scan.old }
{
    let Some(cursor) = opened(cursor) else {
        return refused(StatusWord::CONDITIONS_NOT_SATISFIED);
    };
    let Scan {
        is_found,
        choice,
        room,
    } = scan;
    find_written(
        &tables.store,
        bench,
        actor,
        cursor,
        Privilege::Delete,
        is_found,
        choice,
    )?;
    let Some(slot) = find_row(tables, bench, cursor, *is_found, choice, room)? else {
        return refused(StatusWord::RECORD_NOT_FOUND);
    };
    tables.remove_row(slot);
    Ok(())
}

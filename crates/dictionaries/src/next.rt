// The next row of a dictionary.
ghost use Rattle.std.specs.Prelude.{◌≡◌, ◌*◌, IfOk, IfSome};
ghost use Rattle.eeprom.specs.Chip.{Becomes, RisesAtMost};
ghost use Rattle.eeprom.specs.Fault.{each_error};
ghost use Rattle.eeprom.specs.Frame.{Reads};
ghost use Rattle.eeprom.specs.StoreOf.{cell_size};
ghost use Rattle.scql_base.specs.declared.records.ObjectKind.TheVariants.{Dictionary};
ghost use Rattle.scql_base.specs.declared.words.Subject as words;
ghost use Rattle.scql_model.specs.Database.{Database};
ghost use Rattle.scql_model.specs.Dictionaries.{rows_told};
ghost use Rattle.record_table.specs.Asking.{Holds, SameSide, octets_so_far, slots_asked};
ghost use Rattle.dictionaries.specs.Told.{IsNext, most_cells_read};

use crate::grants::next_grant;
use crate::objects::next_object;
use crate::users::next_user;
use eeprom::{Eeprom, EepromFault};
use record_store::SideReader;
use scql_base::{Object, ObjectKind, Row, Subject};

/// The row of a dictionary that has the least stamp above a stamp: that stamp, and in `out` the row. None where there is none, and of an
/// object that is no dictionary.
pub fn next_after<B: Eeprom>(
    reader: &mut SideReader<'_, '_, B>,
    dictionary: &Object,
    stamp: u32,
    out: &mut Row,
) -> Result<Option<u32>, EepromFault>
    ensures next { (db : Database) (subject : words.Subject) → Holds reader.old db → dictionary.now.kind ≡ Dictionary subject
        → IfOk result (λ next. IsNext (rows_told db dictionary.now.owner subject) stamp next out.new) }
    ensures octets_read { (subject : words.Subject) → dictionary.now.kind ≡ Dictionary subject → IfOk result (λ _. IfSome (slots_asked reader.old)
        (λ slots. Becomes (RisesAtMost (cell_size * most_cells_read reader.old.store.now.chains.cells subject slots)) (octets_so_far reader.old) (octets_so_far reader.new))) }
    ensures goes_on { SameSide reader.old reader.new }
    ensures frame { Reads each_error B.chip B.faults reader.old.bench.now reader.new.bench.now result }
{
    let ObjectKind::Dictionary { subject } = &dictionary.kind else {
        return Ok(None);
    };
    let owner = dictionary.owner;
    match subject {
        Subject::Objects => next_object(reader, owner, stamp, out),
        Subject::Users => next_user(reader, owner, stamp, out),
        Subject::Grants => next_grant(reader, owner, stamp, out),
    }
}

// What a cursor chooses of a dictionary.
ghost use Rattle.std.specs.Prelude.{◌≡◌, List, Some, IfOk, IfSome, IsNone, option_map, true, false};
ghost use Rattle.eeprom.specs.Fault.{each_error};
ghost use Rattle.scql_base.specs.Row.{are_a_row};
ghost use Rattle.scql_base.specs.declared.cursor.Place.{Place};
ghost use Rattle.scql_base.specs.declared.records.ObjectKind.TheVariants.{Dictionary};
ghost use Rattle.scql_base.specs.declared.words.Subject as words;
ghost use Rattle.scql_model.specs.Database.{Database};
ghost use Rattle.scql_model.specs.Defining.{is_table_or_view};
ghost use Rattle.scql_model.specs.Dictionaries.{rows_told};
ghost use Rattle.scql_model.specs.Moves as moves;
ghost use Rattle.scql_model.specs.Objects.{StampedRow};
ghost use Rattle.dictionaries.specs.Told.{IsNext};
ghost use Rattle.cursor.specs.Moved.{handed, row_handed};
ghost use Rattle.db_read.specs.Chosen.{values_at};
ghost use Rattle.db_read.specs.ReadRows.{ReadsTold};
ghost use Rattle.db_read.specs.Reader.{ReadsFrom, ReadsOn};
ghost use Rattle.db_read.specs.Told.{TellsRows, shown_told};

use crate::chosen::cut_into;
use crate::reader::Reader;
use crate::scan::{self, Choice};
use dictionaries::next_after;
use eeprom::{Eeprom, EepromFault};
use record_store::SideReader;
use scql_base::{Object, Row};
use search_cond::Bound;
use views::Places;

/// The rows of a dictionary that a cursor chooses, and their values that it shows.
#[derive(Drop)]
pub(crate) struct Told<'a> {
    /// The dictionary.
    pub(crate) dictionary: &'a Object,
    /// The places of the cursor's columns among the dictionary's.
    pub(crate) places: &'a Places,
    /// The cursor's conditions.
    pub(crate) conditions: &'a Bound,
}

impl<'a> Told<'a> {
    /// The rows of a dictionary, as they were chosen. None where the object isn't one.
    pub(crate) fn of(choice: &'a Choice) -> Option<Told<'a>>
        ensures dictionary { IfSome result (λ told. (choice.now.object ≡ Some told.dictionary.now) × (is_table_or_view told.dictionary.now.kind ≡ false)) }
        ensures columns { IfSome result (λ told. (told.places.now ≡ choice.now.places) × (told.conditions.now ≡ choice.now.conditions)) }
        ensures none { IsNone result → IfSome choice.now.object (λ o. is_table_or_view o.kind ≡ true) }
    {
        let dictionary = choice.object.as_ref()?;
        if scan::is_table_or_view(&dictionary.kind) {
            return None;
        }
        Some(Told {
            dictionary,
            places: &choice.places,
            conditions: &choice.conditions,
        })
    }
}

/// The stamp of the next chosen row behind a stamp.
pub(crate) fn next_told<B: Eeprom>(
    reader: &mut Reader<'_, B>,
    told: &Told<'_>,
    stamp: u32,
) -> Result<Option<u32>, EepromFault>
    ensures { ReadsTold told.now (λ next rows. next ≡ option_map (λ row. row.stamp) (moves.row_behind (Place.At stamp) rows)) reader.old reader.new result }
{
    let mut row = Row::new();
    told_behind(reader, told, stamp, &mut row)
}

/// Hands out what is shown of the next chosen row behind a stamp, and answers its stamp.
pub(crate) fn next_told_row<B: Eeprom>(
    reader: &mut Reader<'_, B>,
    told: &Told<'_>,
    stamp: u32,
    out: &mut Row,
) -> Result<Option<u32>, EepromFault>
    ensures { ReadsTold told.now (λ next rows. row_handed next out.new ≡ moves.row_behind (Place.At stamp) rows) reader.old reader.new result }
{
    let mut row = Row::new();
    let Some(next) = told_behind(reader, told, stamp, &mut row)? else {
        return Ok(None);
    };
    cut_into(told.places, &row, out);
    Ok(Some(next))
}

// Reads the next chosen row behind a stamp into a place, and answers its stamp. The rows between are read there too.
fn told_behind<B: Eeprom>(
    reader: &mut Reader<'_, B>,
    told: &Told<'_>,
    stamp: u32,
    row: &mut Row,
) -> Result<Option<u32>, EepromFault>
    ensures reads { ReadsTold told.now (λ next rows. shown_told told.now next row.new ≡ moves.row_behind (Place.At stamp) rows) reader.old reader.new result }
    ensures can_cut { IfOk result (λ next. IfSome next (λ _. (rows : List StampedRow) → TellsRows told.now reader.old.store.now reader.old.side (B.chip reader.old.bench.now) rows
        → are_a_row (values_at told.now.places.now.items row.new) ≡ true)) }
{
    let mut passed = stamp;
    while let Some(next) = next_of(reader, told.dictionary, passed, row)? {
        // No stamp is passed twice, whatever an image tells that isn't a valid one.
        if next <= passed {
            return Ok(None);
        }
        if told.conditions.matches(row) {
            prove!(row.len() <= Row::MOST);
            return Ok(Some(next));
        }
        passed = next;
    }
    Ok(None)
}

// Reads the next row of a dictionary behind a stamp into a place, and answers its stamp.
fn next_of<B: Eeprom>(
    reader: &mut Reader<'_, B>,
    dictionary: &Object,
    stamp: u32,
    row: &mut Row,
) -> Result<Option<u32>, EepromFault>
    ensures next { (db : Database) (subject : words.Subject) → ReadsFrom reader.old db → dictionary.now.kind ≡ Dictionary subject
        → IfOk result (λ next. IsNext (rows_told db dictionary.now.owner subject) stamp next row.new) }
    ensures reads { ReadsOn each_error reader.old reader.new result }
{
    let mut side = SideReader {
        store: reader.store,
        bench: &mut *reader.bench,
        side: reader.side,
    };
    next_after(&mut side, dictionary, stamp, row)
}

/// Hands out what is shown of the row of a stamp, and answers whether it is chosen. The row is the one that comes next behind the stamp before.
pub(crate) fn told_row<B: Eeprom>(
    reader: &mut Reader<'_, B>,
    told: &Told<'_>,
    stamp: u32,
    out: &mut Row,
) -> Result<bool, EepromFault>
    ensures { ReadsTold told.now (λ there rows. handed there out.new ≡ option_map (λ row. row.values) (moves.row_at stamp rows)) reader.old reader.new result }
{
    if stamp == 0 {
        return Ok(false);
    }
    let mut row = Row::new();
    let Some(next) = next_of(reader, told.dictionary, stamp - 1, &mut row)? else {
        return Ok(false);
    };
    if next != stamp {
        return Ok(false);
    }
    if !told.conditions.matches(&row) {
        return Ok(false);
    }
    prove!(row.len() <= Row::MOST);
    cut_into(told.places, &row, out);
    Ok(true)
}

// Rows in octets.
ghost use Rattle.std.specs.Prelude.{◌≡◌, ◌≤◌, Some, true, [], IfSome, length, option_map};
ghost use Rattle.eeprom.specs.StoreOf.{longest_record};
ghost use Rattle.scql_base.specs.declared.records.RowRecord.{RowRecord};
ghost use Rattle.scql_model.specs.Records.{row_in, row_record, values_to_the_end};

use crate::{number_and_rest, put, put_number};
use eeprom::RecordOctets;
use scql_base::{Row, RowRecord};

const MARK: u8 = RowRecord::MARK;

/// Fills `out` with the record of a row: its stamp, its table's and its values as they stand in the row.
pub fn encode(row: &RowRecord, out: &mut RecordOctets)
    requires { length (row_record.spell row.now) ≤ longest_record }
    ensures { out.new.items ≡ row_record.spell row.now }
{
    out.clear();
    out.push(MARK);
    put_number(out, row.stamp);
    put_number(out, row.table);
    put(out, row.row.octets());
}

/// The row whose record these octets are, within the limits.
pub fn decode(octets: &[u8]) -> Option<RowRecord>
    ensures found { IfSome result (λ row. (row_record.fits row ≡ true) × (octets.now ≡ row_record.spell row)) }
    ensures only { (row : RowRecord) → row_record.fits row ≡ true → octets.now ≡ row_record.spell row → result ≡ Some row }
    ensures exact { result ≡ row_in octets.now }
{
    let mut row = RowRecord {
        stamp: 0,
        table: 0,
        row: Row::new(),
    };
    decode_into(octets, &mut row)?;
    Some(row)
}

/// Becomes the row whose record these octets are, as `decode` gives it. Where they are none it may be any row.
pub fn decode_into(octets: &[u8], row: &mut RowRecord) -> Option<()>
    ensures found { IfSome result (λ _. (row_record.fits row.new ≡ true) × (octets.now ≡ row_record.spell row.new)) }
    ensures only { (of : RowRecord) → row_record.fits of ≡ true → octets.now ≡ row_record.spell of → option_map (λ _. row.new) result ≡ Some of }
    ensures exact { option_map (λ _. row.new) result ≡ row_in octets.now }
{
    read_into(octets, row)
}

fn read_into(octets: &[u8], row: &mut RowRecord) -> Option<()>
    ensures { option_map (λ _. row.new) result ≡ row_in octets.now }
{
    let [MARK, octets @ ..] = octets else {
        return None;
    };
    let (stamp, rest) = number_and_rest(octets)?;
    let (table, rest) = number_and_rest(rest)?;
    values_into(rest, &mut row.row)?;
    row.stamp = stamp;
    row.table = table;
    Some(())
}

// The values that octets spell to their end, of which there is at least one.
fn values_into(octets: &[u8], row: &mut Row) -> Option<()>
    ensures { option_map (λ _. (row.new, [])) result ≡ values_to_the_end.read octets.now }
{
    row.read_into(octets)?;
    if row.len() == 0 { None } else { Some(()) }
}

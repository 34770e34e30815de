// The lists of a record: the columns of a table or a view, and the conditions of a view.
ghost use Rattle.std.specs.Prelude.{◌≡◌, ◌≤◌, ◌+◌, [], ◌++◌, length, option_map};
ghost use Rattle.arrayvec.specs.ArrayVec.{array_vec_len};
ghost use Rattle.eeprom.specs.StoreOf.{longest_record};
ghost use Rattle.scql_base.specs.Name.{is_name};
ghost use Rattle.scql_model.specs.Fields.{many_at, text_at};
ghost use Rattle.scql_model.specs.Records as records;
ghost use Rattle.catalog_codec.specs.Conditions.{condition};

use crate::fields::{comparison_at, name_at, value_at};
use crate::writing::put_text;
use eeprom::RecordOctets;
use scql_base::{Condition, Conditions, NameList};

pub(crate) fn columns_at(octets: &[u8]) -> Option<(NameList, &[u8])>
    ensures { option_map (λ x. (x.0, x.1.now)) result ≡ records.columns.read octets.now }
{
    let [count, names @ ..] = octets else {
        return None;
    };
    if *count == 0 || *count > 15 {
        return None;
    }
    names_at(*count, names)
}

/// Reads conditions into an empty list, and answers the octets behind them.
pub(crate) fn conditions_into<'a>(octets: &'a [u8], conditions: &mut Conditions) -> Option<&'a [u8]>
    requires empty { conditions.old ≡ [] }
    ensures { option_map (λ x. (conditions.new, x.now)) result ≡ records.conditions.read octets.now }
{
    let [count, entries @ ..] = octets else {
        return None;
    };
    if *count > 8 {
        return None;
    }
    entries_into(*count, entries, conditions)
}

// So many names.
fn names_at(count: u8, octets: &[u8]) -> Option<(NameList, &[u8])>
    requires few { count ≤ 15 }
    ensures { option_map (λ x. (x.0, x.1.now)) result ≡ many_at (text_at is_name) count octets.now }
{
    let mut names = NameList::new();
    let mut rest = octets;
    for _ in 0..count {
        let (name, after) = name_at(rest)?;
        let pushed = names.push(name).is_ok();
        prove!(pushed);
        rest = after;
    }
    Some((names, rest))
}

// So many conditions.
fn entries_into<'a>(count: u8, octets: &'a [u8], conditions: &mut Conditions) -> Option<&'a [u8]>
    requires few { count ≤ 8 }
    requires empty { conditions.old ≡ [] }
    ensures { option_map (λ x. (conditions.new, x.now)) result ≡ many_at condition.read count octets.now }
{
    let mut rest = octets;
    for _ in 0..count {
        let (condition, after) = condition_at(rest)?;
        let pushed = conditions.push(condition).is_ok();
        prove!(pushed);
        rest = after;
    }
    Some(rest)
}

fn condition_at(octets: &[u8]) -> Option<(Condition, &[u8])>
    ensures { option_map (λ x. (x.0, x.1.now)) result ≡ condition.read octets.now }
{
    let (column, rest) = name_at(octets)?;
    let (comparison, rest) = comparison_at(rest)?;
    let (value, rest) = value_at(rest)?;
    Some((
        Condition {
            column,
            comparison,
            value,
        },
        rest,
    ))
}

/// Puts columns behind others: how many there are, and their texts.
pub(crate) fn put_columns(out: &mut RecordOctets, columns: &NameList)
    requires { array_vec_len out.old + length (records.columns.spell columns.now) ≤ longest_record }
    ensures { out.new.items ≡ out.old.items ++ records.columns.spell columns.now }
{
    out.push(columns.len() as u8);
    for column in columns.as_slice() {
        put_text(out, column.octets());
    }
}

/// Puts conditions behind others: how many there are, and each of them.
pub(crate) fn put_conditions(out: &mut RecordOctets, conditions: &Conditions)
    requires { array_vec_len out.old + length (records.conditions.spell conditions.now) ≤ longest_record }
    ensures { out.new.items ≡ out.old.items ++ records.conditions.spell conditions.now }
{
    out.push(conditions.len() as u8);
    for condition in conditions.as_slice() {
        put_condition(out, condition);
    }
}

fn put_condition(out: &mut RecordOctets, entry: &Condition)
    requires { array_vec_len out.old + length (condition.spell entry.now) ≤ longest_record }
    ensures { out.new.items ≡ out.old.items ++ condition.spell entry.now }
{
    put_text(out, entry.column.octets());
    out.push(entry.comparison.code());
    put_text(out, entry.value.as_slice());
}

// Tables, views and dictionaries in octets.
ghost use Rattle.std.specs.Prelude.{◌≡◌, ◌∷◌, None, if◌then◌else◌, is_some};
ghost use Rattle.scql_base.specs.declared.records.TheConstants.Object.{TABLE_MARK, VIEW_MARK, DICTIONARY_MARK};
ghost use Rattle.catalog_codec.specs.Catalog.{object_kind};
ghost use Rattle.catalog_codec.specs.Kinds.{read_as};

use crate::Record;
use crate::fields::{name_at, subject_at};
use crate::lists::{columns_at, conditions_into, put_columns, put_conditions};
use crate::writing::put_text;
use eeprom::RecordOctets;
use row_codec::{number_and_rest, put_number};
use scql_base::{Conditions, Object, ObjectKind};

const TABLE: u8 = Object::TABLE_MARK;

const VIEW: u8 = Object::VIEW_MARK;

const DICTIONARY: u8 = Object::DICTIONARY_MARK;

impl Record for Object {
    ghost use Rattle.catalog_codec.specs.Kinds.{FitsChain};
    ghost use Rattle.catalog_codec.specs.Catalog.{object_kind};
    ghost use Rattle.catalog_codec.specs.CatalogLaws.{IsKind-object};

    ghost kind = { object_kind };

    ghost can_encode = { FitsChain object_kind };

    fn has_mark(octet: u8) -> bool {
        matches!(octet, TABLE | VIEW | DICTIONARY)
    }

    fn read(octets: &[u8]) -> Option<Object> {
        let mut place = None;
        Object::read_into(octets, &mut place);
        place
    }

    fn read_into(octets: &[u8], place: &mut Option<Object>) {
        let read = match octets {
            [TABLE, fields @ ..] => read_table(fields, place),
            [VIEW, fields @ ..] => read_view(fields, place),
            [DICTIONARY, fields @ ..] => read_dictionary(fields, place),
            _ => None,
        };
        if read.is_none() {
            *place = None;
        }
    }

    fn encode(&self, out: &mut RecordOctets) {
        out.clear();
        match &self.kind {
            ObjectKind::Table { columns } => {
                out.push(TABLE);
                put_number(out, self.stamp);
                put_number(out, self.owner);
                put_text(out, self.name.octets());
                put_columns(out, columns);
            }
            ObjectKind::View {
                base,
                columns,
                conditions,
            } => {
                out.push(VIEW);
                put_number(out, self.stamp);
                put_number(out, self.owner);
                put_number(out, *base);
                put_text(out, self.name.octets());
                put_columns(out, columns);
                put_conditions(out, conditions);
            }
            ObjectKind::Dictionary { subject } => {
                out.push(DICTIONARY);
                put_number(out, self.stamp);
                put_number(out, self.owner);
                put_text(out, self.name.octets());
                out.push(subject.code());
            }
        }
    }

    fn stamp(&self) -> u32 {
        self.stamp
    }

    ghost lawful = { IsKind-object };
}

// Reads the table whose record has these fields behind its mark into a place, where there is one.
fn read_table(fields: &[u8], place: &mut Option<Object>) -> Option<()>
    ensures { (if is_some result then place.new else None) ≡ read_as object_kind (TABLE_MARK ∷ fields.now) }
{
    let (stamp, rest) = number_and_rest(fields)?;
    let (owner, rest) = number_and_rest(rest)?;
    let (name, rest) = name_at(rest)?;
    let (columns, rest) = columns_at(rest)?;
    if !rest.is_empty() {
        return None;
    }
    *place = Some(Object {
        stamp,
        name,
        owner,
        kind: ObjectKind::Table { columns },
    });
    Some(())
}

// Reads the view whose record has these fields behind its mark, likewise. What it needs room for is in a function of its own, so
// that a table doesn't pay for it.
#[inline(never)]
fn read_view(fields: &[u8], place: &mut Option<Object>) -> Option<()>
    ensures { (if is_some result then place.new else None) ≡ read_as object_kind (VIEW_MARK ∷ fields.now) }
{
    let (stamp, rest) = number_and_rest(fields)?;
    let (owner, rest) = number_and_rest(rest)?;
    let (base, rest) = number_and_rest(rest)?;
    let (name, rest) = name_at(rest)?;
    let (columns, rest) = columns_at(rest)?;
    let mut conditions = Conditions::new();
    let rest = conditions_into(rest, &mut conditions)?;
    if !rest.is_empty() {
        return None;
    }
    *place = Some(Object {
        stamp,
        name,
        owner,
        kind: ObjectKind::View {
            base,
            columns,
            conditions,
        },
    });
    Some(())
}

// Reads the dictionary whose record has these fields behind its mark, likewise.
#[inline(never)]
fn read_dictionary(fields: &[u8], place: &mut Option<Object>) -> Option<()>
    ensures { (if is_some result then place.new else None) ≡ read_as object_kind (DICTIONARY_MARK ∷ fields.now) }
{
    let (stamp, rest) = number_and_rest(fields)?;
    let (owner, rest) = number_and_rest(rest)?;
    let (name, rest) = name_at(rest)?;
    let (subject, rest) = subject_at(rest)?;
    if !rest.is_empty() {
        return None;
    }
    *place = Some(Object {
        stamp,
        name,
        owner,
        kind: ObjectKind::Dictionary { subject },
    });
    Some(())
}

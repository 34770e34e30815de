// Which privileges on an object a user holds by grants.
ghost use Rattle.std.specs.Prelude.{◌≡◌, ◌^◌, ℕ, Some, IfOk, IfSome};
ghost use Rattle.record_store.specs.Tags as tags;
ghost use Rattle.record_store.specs.declared.tags.Tag.TheVariants as by;
ghost use Rattle.scql_model.specs.Rights.{has_bit};
ghost use Rattle.catalog_codec.specs.Catalog.{grant_kind};
ghost use Rattle.record_table.specs.Asking.{slots_asked};
ghost use Rattle.record_table.specs.Listed.{listed};
ghost use Rattle.record_table.specs.Tagged.{cells_tagged};
ghost use Rattle.record_table.specs.Reading.{ReadsSide};
ghost use Rattle.privilege_table.specs.Granted.{AreGranted, AreHeld, cells_granted, has_pair_bit};

use eeprom::{Eeprom, EepromFault};
use record_store::{RecordOctets, SideReader, Tag, pair_tag};
use record_table::{next_tagged, read_entry};
use scql_base::Grant;

/// The bits of the privileges on an object that grants give to a user or to PUBLIC. Of the grants those alone are read that have the
/// tag of the object and one of these two.
pub fn held<B: Eeprom>(
    reader: &mut SideReader<'_, '_, B>,
    object: u32,
    grantee: u32,
) -> Result<u8, EepromFault>
    ensures held { IfOk result (λ bits. IfSome (slots_asked reader.old) (λ slots. AreHeld object grantee (listed grant_kind slots) bits)) }
    ensures reads { ReadsSide (cells_granted object grantee) reader.old reader.new result }
{
    let public = granted(reader, object, 0)?;
    let own = granted(reader, object, grantee)?;
    Ok(public | own)
}

// The bits of the privileges on an object that grants give to one user, or to PUBLIC where that is 0.
fn granted<B: Eeprom>(
    reader: &mut SideReader<'_, '_, B>,
    object: u32,
    grantee: u32,
) -> Result<u8, EepromFault>
    ensures granted { IfOk result (λ bits. IfSome (slots_asked reader.old) (λ slots. AreGranted object grantee (listed grant_kind slots) bits)) }
    ensures reads { ReadsSide (cells_tagged grant_kind (Some (by.Name (tags.pair_tag object grantee)))) reader.old reader.new result }
{
    let (store, side) = (reader.store, reader.side);
    let mut octets = RecordOctets::new();
    let mut bits = 0;
    let tag = Some(Tag::Name(pair_tag(object, grantee)));
    let end = store.slots_in_use();
    let mut slot = next_tagged::<Grant>(store, side, tag, 0);
    while slot < end {
        if let Some(grant) = read_entry(reader, slot, &mut octets)? {
            bits |= bits_given(&grant, object, grantee);
        }
        slot = next_tagged::<Grant>(store, side, tag, slot + 1);
    }
    Ok(bits)
}

// The bits that one grant gives to this user, or to PUBLIC.
fn bits_given(grant: &Grant, object: u32, grantee: u32) -> u8
    ensures { (i : ℕ) → has_bit (2 ^ i) result ≡ has_pair_bit object grantee (2 ^ i) grant.now }
{
    if grant.object == object && grant.grantee == grantee {
        grant.privileges.bits
    } else {
        0
    }
}

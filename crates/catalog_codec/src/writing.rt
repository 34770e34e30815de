// A text, put behind others.
ghost use Rattle.std.specs.Prelude.{◌≡◌, ◌≤◌, ◌+◌, ◌++◌, ◌∷◌, length};
ghost use Rattle.arrayvec.specs.ArrayVec.{array_vec_len};
ghost use Rattle.eeprom.specs.StoreOf.{longest_record};

use eeprom::RecordOctets;
use row_codec::put;

// Puts a text behind others: its length in one octet, and its octets.
pub(crate) fn put_text(out: &mut RecordOctets, text: &[u8])
    requires room { array_vec_len out.old + 1 + length text.now ≤ longest_record }
    requires short { length text.now ≤ 255 }
    ensures { out.new.items ≡ out.old.items ++ length text.now ∷ text.now }
{
    out.push(text.len() as u8);
    put(out, text);
}

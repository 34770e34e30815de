// Parts of a record: read from the front of octets, or put behind others.
ghost use Rattle.std.specs.Prelude.{◌≡◌, ◌≤◌, ◌+◌, ◌++◌, length, option_map};
ghost use Rattle.std.specs.Int.{w32, to_be_bytes};
ghost use Rattle.arrayvec.specs.ArrayVec.{array_vec_len};
ghost use Rattle.eeprom.specs.StoreOf.{longest_record};
ghost use Rattle.scql_model.specs.Fields as fields;

use eeprom::RecordOctets;

/// A number in four octets, the highest first, and the octets behind it.
pub fn number_and_rest(octets: &[u8]) -> Option<(u32, &[u8])>
    ensures { option_map (λ x. (x.0, x.1.now)) result ≡ fields.number_from octets.now }
{
    let [a, b, c, d, rest @ ..] = octets else {
        return None;
    };
    Some((u32::from_be_bytes([*a, *b, *c, *d]), rest))
}

/// Puts octets behind others, where a record has room for them.
pub fn put(out: &mut RecordOctets, octets: &[u8])
    requires { array_vec_len out.old + length octets.now ≤ longest_record }
    ensures { out.new.items ≡ out.old.items ++ octets.now }
{
    let fits = out.try_extend_from_slice(octets).is_ok();
    prove!(fits);
}

/// Puts a number behind others, where a record has room for it: four octets, the highest first.
pub fn put_number(out: &mut RecordOctets, number: u32)
    requires { array_vec_len out.old + 4 ≤ longest_record }
    ensures { out.new.items ≡ out.old.items ++ to_be_bytes w32 number }
{
    put(out, &number.to_be_bytes());
}

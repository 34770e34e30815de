// What each kind of record has: its coding, its stamp, and how it is told from other kinds.
ghost use Rattle.std.specs.Prelude.{◌≡◌, Some, true, IfSome};
ghost use Rattle.catalog_codec.specs.Kinds.{Kind, IsKind, read_as};

use eeprom::RecordOctets;

/// A record that a slot of a store can have.
pub trait Record: Drop {
    /// The kind: its first octets, its spelling and the number that orders its records.
    ghost kind: { Kind Self };

    /// Which records may be spelled: those whose spelling a store can hold, where that isn't so of all.
    ghost can_encode: { Self → Type 0 };

    /// Whether a record that begins with this octet is of the kind, if it is one at all.
    fn has_mark(octet: u8) -> bool
        ensures { result ≡ kind.marks octet };

    /// The record whose spelling these octets are, as each kind reads it; callers take `decode`.
    fn read(octets: &[u8]) -> Option<Self>
        ensures { result ≡ read_as kind octets.now };

    /// Reads the record whose spelling these octets are into a place, so that it isn't moved there. Where they are none the place is empty.
    fn read_into(octets: &[u8], place: &mut Option<Self>)
        ensures { place.new ≡ read_as kind octets.now }
    {
        *place = Self::read(octets);
    }

    /// Fills `out` with the spelling.
    fn encode(&self, out: &mut RecordOctets)
        requires { can_encode self.now }
        ensures { out.new.items ≡ kind.form.spell self.now };

    /// The number that orders the records of the kind.
    fn stamp(&self) -> u32
        ensures { result ≡ kind.key self.now };

    /// What is spelled is read again, what is read is spelled so, and no other octets are of the kind.
    ghost lawful: { IsKind kind };

    /// The record whose spelling these octets are, within the limits and with nothing left over.
    final fn decode(octets: &[u8]) -> Option<Self>
        ensures value { result ≡ read_as kind octets.now }
        ensures found { IfSome result (λ x. (kind.form.fits x ≡ true) × (octets.now ≡ kind.form.spell x)) }
        ensures only { (x : Self) → kind.form.fits x ≡ true → octets.now ≡ kind.form.spell x → result ≡ Some x }
    {
        Self::read(octets)
    }
}

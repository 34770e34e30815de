// The octets of an image. Each place behind its end reads as 0.
ghost use Rattle.std.specs.Prelude.{◌≡◌, ◌+◌, ◌<◌, slice_index, slice_range};
ghost use Rattle.eeprom.specs.StoreOf as image;

/// The octet at a place.
pub(crate) fn octet_at(octets: &[u8], place: usize) -> u8
    ensures { result ≡ slice_index octets.now place }
{
    octets.get(place).copied().unwrap_or(0)
}

/// The number in the two octets at a place.
pub(crate) fn number_at(octets: &[u8], place: usize) -> u16
    requires { place < 16777216 }
    ensures { result ≡ image.number_at octets.now place }
{
    u16::from_be_bytes([octet_at(octets, place), octet_at(octets, place + 1)])
}

/// So many octets from a place on, or as many of them as there are.
pub(crate) fn part(octets: &[u8], place: usize, size: usize) -> &[u8]
    requires near { place < 16777216 }
    requires short { size < 65536 }
    ensures { result.now ≡ slice_range octets.now place (place + size) }
{
    let start = place.min(octets.len());
    let rest = &octets[start..];
    &rest[..size.min(rest.len())]
}

// The tags by which records are searched, so that few others are read.
ghost use Rattle.std.specs.Prelude.{◌≡◌, ◌≤◌, ◌<◌, ℕ, length, slice_index, slice_index_or, take, drop, true, false};
ghost use Rattle.std.specs.List.{list_any};
ghost use Rattle.eeprom.specs.StoreOf.{most_cells};
ghost use Rattle.eeprom.specs.StoreOf as image;
ghost use Rattle.record_store.specs.Tags as tags;
ghost use Rattle.record_store.specs.Tags.{text_of};

/// The first octets of records that are searched by a tag.
const USER: u8 = 1;

const TABLE: u8 = 2;

const VIEW: u8 = 3;

const DICTIONARY: u8 = 4;

const GRANT: u8 = 5;

/// So many tags are looked at together, as one piece of work of the processor.
const TOGETHER: usize = 16;

/// What a record is searched by: the tag of its name, or of a grant's object and grantee; or its stamp.
#[derive(Clone, Copy)]
pub enum Tag {
    Name(u16),
    Stamp(u32),
}

/// The tag of a name.
pub fn name_tag(name: &[u8]) -> u16
    ensures { result ≡ tags.name_tag name.now }
{
    name.iter().fold(0, |tag, octet| mixed(tag, *octet))
}

// A tag, and one more octet.
fn mixed(tag: u16, octet: u8) -> u16
    ensures { result ≡ tags.mixed tag octet }
{
    ((u32::from(tag) * 31 + u32::from(octet)) % 65536) as u16
}

/// The tag of the grant on an object to a user, by their stamps.
pub fn pair_tag(object: u32, grantee: u32) -> u16
    ensures { result ≡ tags.pair_tag object grantee }
{
    ((u64::from(object) * 509 + u64::from(grantee)) % 65536) as u16
}

/// The tag of a record. Of a stamp's four octets the last two decide.
pub(crate) fn tag_of(octets: &[u8]) -> u16
    ensures { result ≡ tags.tag_of octets.now }
{
    if octet_at(octets, 0) == GRANT {
        let object = number_at(octets, 7);
        let grantee = number_at(octets, 11);
        return pair_tag(u32::from(object), u32::from(grantee));
    }
    name_tag(name_in(octets))
}

/// The stamp of a record, whose four octets stand behind the first.
pub(crate) fn stamp_of(octets: &[u8]) -> u32
    ensures { result ≡ tags.stamp_of octets.now }
{
    u32::from(number_at(octets, 1)) * 65536 + u32::from(number_at(octets, 3))
}

// The name in a record, if it has one.
fn name_in(octets: &[u8]) -> &[u8]
    ensures { result.now ≡ tags.name_in octets.now }
{
    match octet_at(octets, 0) {
        USER => text_at(octets, 11),
        TABLE | DICTIONARY => text_at(octets, 9),
        VIEW => text_at(octets, 13),
        _ => &[],
    }
}

// The text at a place, which has its length before it.
fn text_at(octets: &[u8], place: usize) -> &[u8]
    ensures { result.now ≡ text_of (drop place octets.now) }
{
    match octets.get(place) {
        Some(size) => part(octets, place + 1, usize::from(*size)),
        None => &[],
    }
}

// The octet at a place. Each behind the end reads as 0.
fn octet_at(octets: &[u8], place: usize) -> u8
    ensures { result ≡ slice_index octets.now place }
{
    octets.get(place).copied().unwrap_or(0)
}

// The number in the two octets at a place.
fn number_at(octets: &[u8], place: usize) -> u16
    requires { place < 256 }
    ensures { result ≡ image.number_at octets.now place }
{
    u16::from_be_bytes([octet_at(octets, place), octet_at(octets, place + 1)])
}

// So many octets from a place on, or as many of them as there are.
fn part(octets: &[u8], place: usize, size: usize) -> &[u8]
    ensures { result.now ≡ take size (drop place octets.now) }
{
    let rest = &octets[place.min(octets.len())..];
    &rest[..size.min(rest.len())]
}

/// The next slot from this one on that has a tag, of as many slots as there are tags, or their end. Nothing is read.
pub(crate) fn next_with<T: Copy + PartialEq>(tags: &[T], tag: T, from: u16) -> u16
    requires few { length tags.now ≤ most_cells }
    ensures onward { from ≤ result }
    ensures most { from ≤ length tags.now → result ≤ length tags.now }
    ensures here { result < length tags.now → T.eq (slice_index_or tags.now result tag) tag ≡ true }
    ensures others { (slot : ℕ) → from ≤ slot → slot < result → T.eq (slice_index_or tags.now slot tag) tag ≡ false }
{
    let mut slot = usize::from(from);
    while slot + TOGETHER <= tags.len() && !is_among(tag, &tags[slot..slot + TOGETHER]) {
        slot += TOGETHER;
    }
    while slot < tags.len() && tags[slot] != tag {
        slot += 1;
    }
    slot as u16
}

// Whether a tag is among tags. All are looked at: a loop that ended at the first would look at one at a time.
fn is_among<T: Copy + PartialEq>(tag: T, tags: &[T]) -> bool
    ensures { result ≡ list_any (λ other. T.eq other tag) tags.now }
{
    let mut found = false;
    for other in tags {
        found |= *other == tag;
    }
    found
}

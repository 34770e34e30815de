// Lines of words and counts.
ghost use Rattle.std.specs.Prelude.{◌≡◌, ◌+◌, ◌≤◌, ◌++◌, length};
ghost use Rattle.std.specs.Fmt.{decimal};

use arrayvec::ArrayVec;
use itoa::Buffer;

/// Puts octets behind a text.
pub fn put<const N: usize>(text: &mut ArrayVec<u8, N>, octets: &[u8])
    requires { length text.old.items + length octets.now ≤ N }
    ensures { text.new.items ≡ text.old.items ++ octets.now }
{
    let fits = text.try_extend_from_slice(octets).is_ok();
    prove!(fits);
}

/// Puts words and a count behind a text.
pub fn put_count<const N: usize>(text: &mut ArrayVec<u8, N>, words: &[u8], count: u32)
    requires { length text.old.items + length words.now + 10 ≤ N }
    ensures text { text.new.items ≡ text.old.items ++ (words.now ++ decimal count) }
    ensures size { length text.new.items ≤ length text.old.items + length words.now + 10 }
{
    put(text, words);
    put(text, Buffer::new().format(count).as_bytes());
}

// The writes since a log was begun, and what each of them replaced.
ghost use Rattle.std.specs.Prelude.{◌≡◌, ◌+◌, ◌≤◌, ◌++◌, length, slice_range, vec_len, vec_capacity};
ghost use Rattle.log_bench.specs.Entries.{AllWithin, AllWithin-prop};

use eeprom::Heap;
use std::alloc::AllocError;

/// A write: its place, and which octets of the log are its own.
#[derive(Clone, Copy, Drop)]
pub struct Entry {
    at: usize,
    from: usize,
    to: usize,
}

/// The octets that were written stand one behind the other, and so do those that they replaced.
#[derive(Drop)]
pub struct Log {
    entries: Vec<Entry, Heap>,
    octets: Vec<u8, Heap>,
    replaced: Vec<u8, Heap>,
    ghost within: { AllWithin (length octets.items) entries.items } by { AllWithin-prop (length octets.items) entries.items },
    ghost paired: { length replaced.items ≡ length octets.items },
}

impl Log {
    ghost use Rattle.std.specs.Prelude.{◌≡◌, ◌+◌, ◌≤◌, ◌∷◌, ◌++◌, [], length, slice_get, option_map, vec_len, vec_capacity, IsOk, IfOk, OnOk, OnErr};
    ghost use Rattle.log_bench.specs.Log.{writes_in, room_for_writes, room_for_octets};

    /// Takes room for so many writes, and for so many octets of them.
    pub fn new(alloc: Heap, writes: usize, octets: usize) -> Result<Log, AllocError>
        ensures none { IfOk result (λ log. writes_in log ≡ []) }
        ensures room { IfOk result (λ log. (room_for_writes log ≡ writes) × (room_for_octets log ≡ octets)) }
    {
        Ok(Log {
            entries: Vec::with_capacity(alloc, writes)?,
            octets: Vec::with_capacity(alloc, octets)?,
            replaced: Vec::with_capacity(alloc, octets)?,
        })
    }

    /// How many writes there are.
    pub fn len(&self) -> usize
        ensures { result ≡ length (writes_in self.now) }
    {
        self.entries.len()
    }

    /// The write of that number, the first being 0: its place and its octets.
    pub fn get(&self, write: usize) -> Option<(usize, &[u8])>
        ensures place { option_map (λ w. w.0) result ≡ option_map (λ w. w.at) (slice_get (writes_in self.now) write) }
        ensures octets { option_map (λ w. w.1.now) result ≡ option_map (λ w. w.octets) (slice_get (writes_in self.now) write) }
    {
        let entry = self.entries.get(write)?;
        Some((entry.at, part(&self.octets, entry.from, entry.to)))
    }

    /// Adds a write, and what it replaces. Where memory is wanting nothing is added.
    pub fn add(&mut self, at: usize, octets: &[u8], replaced: &[u8]) -> Result<(), AllocError>
        requires { length replaced.now ≡ length octets.now }
        ensures ok { OnOk result (writes_in self.new ≡ writes_in self.old ++ record { at = at; octets = octets.now; replaced = replaced.now } ∷ []) }
        ensures err { OnErr result (writes_in self.new ≡ writes_in self.old) }
        ensures fits { 1 ≤ room_for_writes self.old → length octets.now ≤ room_for_octets self.old → IsOk result }
    {
        self.entries.reserve(1)?;
        self.octets.reserve(octets.len())?;
        self.replaced.reserve(octets.len())?;
        let from = self.octets.len();
        put_behind(&mut self.octets, octets);
        put_behind(&mut self.replaced, replaced);
        let to = self.octets.len();
        self.entries.push_reserved(Entry { at, from, to });
        Ok(())
    }

    /// Begins anew. The room stays.
    pub fn clear(&mut self)
        ensures none { writes_in self.new ≡ [] }
    {
        self.entries.clear();
        self.octets.clear();
        self.replaced.clear();
    }
}

// The octets from one place up to another.
fn part(octets: &[u8], from: usize, to: usize) -> &[u8]
    requires ordered { from ≤ to }
    requires within { to ≤ length octets.now }
    ensures { result.now ≡ slice_range octets.now from to }
{
    &octets[from..to]
}

// Puts octets behind others, where there is room for them.
fn put_behind(octets: &mut Vec<u8, Heap>, more: &[u8])
    requires { vec_len octets.old + length more.now ≤ vec_capacity octets.old }
    ensures { octets.new.items ≡ octets.old.items ++ more.now }
{
    let _ = octets.extend_from_slice(more);
}

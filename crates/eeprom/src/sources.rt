// Sources of commands in memory.
ghost use Rattle.std.specs.Prelude.{◌<◌, ◌≤◌, length};

use crate::counting::count;
use crate::plan::Calls;
use crate::{Source, SourceFault};

/// Octets that are taken in pieces of limited length.
#[derive(Drop)]
pub struct Pieces {
    octets: Vec<u8>,
    taken: usize,
    piece: usize,
    ghost within: { taken ≤ length octets.items },
    ghost some: { 0 < piece },
}

impl Pieces {
    ghost use Rattle.std.specs.Prelude.{◌≡◌, length, Some};
    ghost use Rattle.eeprom.specs.Input.{TakesPiece};
    ghost use Rattle.eeprom.specs.Sources.{left_of, supply_of, taken_into};

    fn new(octets: Vec<u8>, piece: usize) -> Pieces
        requires { 0 < piece }
        ensures left { left_of result ≡ octets.items }
        ensures piece { (supply_of result).piece ≡ piece }
    {
        Pieces {
            octets,
            taken: 0,
            piece,
        }
    }

    /// Takes a piece into the front of `into`, and answers how many octets it has.
    fn take(&mut self, into: &mut [u8]) -> usize
        requires { 0 < length into.old }
        ensures taken { TakesPiece result into.new (Some (left_of self.old)) (Some (left_of self.new)) }
        ensures count { result ≡ taken_into (length into.old) (supply_of self.old) }
        ensures piece { (supply_of self.new).piece ≡ (supply_of self.old).piece }
    {
        let left = &self.octets[self.taken..];
        let count = left.len().min(self.piece).min(into.len());
        into[..count].copy_from_slice(&left[..count]);
        self.taken += count;
        count
    }
}

/// A source that gives at most a piece per read, and fails at the reads that it is told.
#[derive(Drop)]
pub struct MemSource {
    pieces: Pieces,
    reads: Calls,
    faults: u64,
}

impl MemSource {
    ghost use Rattle.std.specs.Prelude.{◌≡◌, Some};
    ghost use Rattle.eeprom.specs.Planned.{none_made};
    ghost use Rattle.eeprom.specs.Sources.{mem_supply, mem_reads};

    /// The reads whose numbers, from 0, are in `fails` fail, and leave what is left.
    pub fn new(octets: Vec<u8>, piece: usize, fails: Vec<usize>) -> MemSource
        requires { 1 ≤ piece }
        ensures left { ⟦<MemSource as Source>⟧.left result ≡ Some octets.items }
        ensures piece { (mem_supply result).piece ≡ piece }
        ensures reads { mem_reads result ≡ none_made fails.items }
        ensures faults { ⟦<MemSource as Source>⟧.source_faults result ≡ 0 }
    {
        MemSource {
            pieces: Pieces::new(octets, piece),
            reads: Calls::new(fails),
            faults: 0,
        }
    }
}

impl Source for MemSource {
    ghost use Rattle.std.specs.Prelude.{◌≡◌, ◌↔◌, ◌<◌, length, Some, IsTrue, IsErr, IfOk, OnErr};
    ghost use Rattle.eeprom.specs.Fault.{Counts};
    ghost use Rattle.eeprom.specs.Input.{TakesPiece};
    ghost use Rattle.eeprom.specs.Planned.{next_made, is_next_failing};
    ghost use Rattle.eeprom.specs.Sources.{mem_supply, mem_reads, mem_faults, taken_into};

    ghost left = { λ source. Some (mem_supply source).left };

    ghost source_faults = { mem_faults };

    fn read(&mut self, into: &mut [u8]) -> Result<usize, SourceFault>
        requires { 0 < length into.old }
        ensures fails { IsErr result ↔ IsTrue (is_next_failing (mem_reads self.old)) }
        ensures taken { IfOk result (λ count. TakesPiece count into.new (Some (mem_supply self.old).left) (Some (mem_supply self.new).left)) }
        ensures count { IfOk result (λ count. count ≡ taken_into (length into.old) (mem_supply self.old)) }
        ensures err { OnErr result (Some (mem_supply self.new).left ≡ Some (mem_supply self.old).left) }
        ensures piece { (mem_supply self.new).piece ≡ (mem_supply self.old).piece }
        ensures reads { mem_reads self.new ≡ next_made (mem_reads self.old) }
        ensures cause { Counts (mem_faults self.old) (mem_faults self.new) result }
    {
        if self.reads.next_fails() {
            count(&mut self.faults);
            return Err(SourceFault);
        }
        Ok(self.pieces.take(into))
    }
}

/// A source that gives at most a piece per read, and never fails.
#[derive(Drop)]
pub struct SteadySource {
    pieces: Pieces,
}

impl SteadySource {
    ghost use Rattle.std.specs.Prelude.{◌≡◌, Some};
    ghost use Rattle.eeprom.specs.Sources.{steady_supply};

    pub fn new(octets: Vec<u8>, piece: usize) -> SteadySource
        requires { 1 ≤ piece }
        ensures left { ⟦<SteadySource as Source>⟧.left result ≡ Some octets.items }
        ensures piece { (steady_supply result).piece ≡ piece }
        ensures faults { ⟦<SteadySource as Source>⟧.source_faults result ≡ 0 }
    {
        SteadySource {
            pieces: Pieces::new(octets, piece),
        }
    }
}

impl Source for SteadySource {
    ghost use Rattle.std.specs.Prelude.{◌≡◌, ◌<◌, length, Some, IsOk, IfOk, OnErr};
    ghost use Rattle.eeprom.specs.Fault.{Counts};
    ghost use Rattle.eeprom.specs.Input.{TakesPiece};
    ghost use Rattle.eeprom.specs.Sources.{steady_supply, taken_into};

    ghost left = { λ source. Some (steady_supply source).left };

    ghost source_faults = { λ source. 0 };

    fn read(&mut self, into: &mut [u8]) -> Result<usize, SourceFault>
        requires { 0 < length into.old }
        ensures succeeds { IsOk result }
        ensures taken { IfOk result (λ count. TakesPiece count into.new (Some (steady_supply self.old).left) (Some (steady_supply self.new).left)) }
        ensures count { IfOk result (λ count. count ≡ taken_into (length into.old) (steady_supply self.old)) }
        ensures err { OnErr result (Some (steady_supply self.new).left ≡ Some (steady_supply self.old).left) }
        ensures piece { (steady_supply self.new).piece ≡ (steady_supply self.old).piece }
        ensures cause { Counts 0 0 result }
    {
        Ok(self.pieces.take(into))
    }
}

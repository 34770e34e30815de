// Octets in room that was taken beforehand.
ghost use Rattle.std.specs.Prelude.{◌+◌, ◌≤◌, length, vec_capacity};

use std::alloc::{AllocError, Global};

/// Octets that are kept as long as there is room. Once a piece found too little room, no room is left.
#[derive(Drop)]
pub struct Reserved {
    octets: Vec<u8>,
    left: usize,
    overrun: bool,
    ghost room: { length octets.items + left ≤ vec_capacity octets },
}

impl Reserved {
    ghost use Rattle.std.specs.Prelude.{◌≡◌, ◌-◌, ◌++◌, [], length, false, true, IfOk, nat_le, if◌then◌else◌};

    pub fn new(alloc: Global, room: usize) -> Result<Reserved, AllocError>
        ensures octets { IfOk result (λ reserved. reserved.octets.items ≡ []) }
        ensures left { IfOk result (λ reserved. reserved.left ≡ room) }
        ensures overrun { IfOk result (λ reserved. reserved.overrun ≡ false) }
    {
        Ok(Reserved {
            octets: Vec::with_capacity(alloc, room)?,
            left: room,
            overrun: false,
        })
    }

    pub fn octets(&self) -> &[u8]
        ensures { result.now ≡ self.now.octets.items }
    {
        &self.octets
    }

    /// Adds a piece, and answers whether there was room for it.
    pub fn add(&mut self, piece: &[u8]) -> bool
        ensures fits { result ≡ nat_le (length piece.now) self.old.left }
        ensures octets { self.new.octets.items ≡ (if result then self.old.octets.items ++ piece.now else self.old.octets.items) }
        ensures left { self.new.left ≡ self.old.left - length piece.now }
        ensures overrun { self.new.overrun ≡ (if result then self.old.overrun else true) }
    {
        let fits = piece.len() <= self.left;
        if fits {
            let _ = self.octets.extend_from_slice(piece);
            self.left -= piece.len();
        } else {
            self.left = 0;
            self.overrun = true;
        }
        fits
    }
}

// A card made, or opened, in a box of its own.
ghost use Rattle.std.specs.Prelude.{◌≡◌, ◌≤◌, IfOk, OnErr, IfSome, IsErrOf};
ghost use Rattle.eeprom.specs.StoreOf.{fewest_cells, most_cells};
ghost use Rattle.scql_model.specs.Database.{fresh};
ghost use Rattle.scql_model.specs.Machine.{start};
ghost use Rattle.card_c.specs.Calls.{OpensImage};
ghost use Rattle.card_c.specs.HeldCard.{IsCardAt};
ghost use Rattle.card_c.specs.declared.status.TheConstants.{NO_MEMORY};

use crate::held::Held;
use crate::status::{NO_MEMORY, NOT_A_CARD};
use card::{Card, OpenRefusal};
use eeprom::{Heap, image_size};
use line_bench::LineBench;
use log_bench::LogBench;

/// For how many writes of a command, and how many octets of them, room is taken beforehand. More is taken where a command makes more.
const WRITES: usize = 64;

const OCTETS: usize = 2048;

/// A new card of so many cells, or none where there is no memory.
pub fn made(alloc: Heap, cells: u16) -> Option<Box<Held, Heap>>
    requires few { fewest_cells ≤ cells }
    requires many { cells ≤ most_cells }
    ensures { IfSome result (λ held. IsCardAt held.value (start (fresh cells))) }
{
    let size = image_size(cells);
    let Ok(octets) = Vec::from_elem(alloc, 0xFF_u8, size) else {
        return None;
    };
    let Ok(mut bench) = LogBench::new(alloc, octets, WRITES, size) else {
        return None;
    };
    let Ok(()) = Card::format(&mut bench, cells) else {
        return None;
    };
    match opened_over(alloc, bench.into_image()) {
        Ok(held) => Some(held),
        Err(_) => None,
    }
}

/// The card of an image, or the status that says why there is none.
pub fn opened(alloc: Heap, image: &[u8]) -> Result<Box<Held, Heap>, u32>
    ensures { OpensImage image.now result }
{
    let Ok(octets) = Vec::from_slice(alloc, image) else {
        return Err(NO_MEMORY);
    };
    opened_over(alloc, octets)
}

// The same of an image that the card takes for its own.
fn opened_over(alloc: Heap, image: Vec<u8, Heap>) -> Result<Box<Held, Heap>, u32>
    ensures { OpensImage image.items result }
{
    let Ok(mut bench) = LineBench::new(alloc, image, WRITES, OCTETS) else {
        return Err(NO_MEMORY);
    };
    match Card::open(alloc, &mut bench) {
        Ok(card) => boxed(alloc, Held::new(card, bench)),
        Err(OpenRefusal::NotACard) => Err(NOT_A_CARD),
        Err(OpenRefusal::NoMemory | OpenRefusal::Fault) => Err(NO_MEMORY),
    }
}

fn boxed(alloc: Heap, held: Held) -> Result<Box<Held, Heap>, u32>
    ensures held { IfOk result (λ boxed. boxed.value ≡ held) }
    ensures ends { OnErr result (IsErrOf result NO_MEMORY) }
{
    match Box::new(alloc, held) {
        Ok(boxed) => Ok(boxed),
        Err(_) => Err(NO_MEMORY),
    }
}

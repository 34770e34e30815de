//! The card for C: what a host calls that keeps the lasting image itself.
#![tactic(auto)]

mod bare;
mod card_desk;
mod handle;
mod held;
mod loose;
mod opening;
mod reply_octets;
mod seat;
mod status;

ghost use Rattle.std.specs.Prelude.{◌≡◌, ◌⊎◌, ◌<◌, length, None};
ghost use Rattle.eeprom.specs.StoreOf.{fewest_cells, most_cells};
ghost use Rattle.line_bench.specs.LineBench.{image_of, text_of, writes_of};
ghost use Rattle.scql_model.specs.Database.{Database, fresh};
ghost use Rattle.scql_model.specs.Machine.{start};
ghost use Rattle.scql_model.specs.Opens.{Opens};
ghost use Rattle.card_c.specs.Calls.{AnswersCall, CallsHeld, CarriesOut, CopiesImage, CopiesText, CopiesWrite, IsOpened, LooksAt, PutsCard, Resets, SitsDown, TellsCount};
ghost use Rattle.card_c.specs.HeldCard.{IsCardAt};
ghost use Rattle.card_c.specs.declared.status.TheConstants.{DONE, WRONG_HANDLE, NO_MEMORY, NOT_A_CARD, WRONG_CELLS};

use crate::handle::Handle;
use crate::opening::{made, opened};
use crate::status::{DONE, NO_MEMORY, TOO_SHORT, WRONG_CELLS, WRONG_HANDLE};
use eeprom::{FEWEST_CELLS, Heap, MOST_CELLS};

/// Makes a card of so many cells, whose database has the user OWNER alone.
#[unsafe(no_mangle)]
pub extern "C" fn huwapire_new(alloc: Heap, card: &mut Handle, cells: u16) -> u32
    ensures puts { PutsCard (λ held. IsCardAt held (start (fresh cells))) card.old.bare.held card.new.bare.held result }
    ensures cells { result ≡ WRONG_CELLS → (cells < fewest_cells) ⊎ (most_cells < cells) }
    ensures ends { (result ≡ DONE) ⊎ ((result ≡ WRONG_HANDLE) ⊎ ((result ≡ WRONG_CELLS) ⊎ (result ≡ NO_MEMORY))) }
{
    if card.is_full() {
        return WRONG_HANDLE;
    }
    if cells < FEWEST_CELLS || MOST_CELLS < cells {
        return WRONG_CELLS;
    }
    match made(alloc, cells) {
        Some(held) => {
            card.put(held);
            DONE
        }
        None => NO_MEMORY,
    }
}

/// Opens the card of an image.
#[unsafe(no_mangle)]
pub extern "C" fn huwapire_open(alloc: Heap, card: &mut Handle, image: &[u8]) -> u32
    ensures puts { PutsCard (IsOpened image.now) card.old.bare.held card.new.bare.held result }
    ensures not_a_card { result ≡ NOT_A_CARD → (db : Database) → Opens image.now db → ⊥ }
    ensures ends { (result ≡ DONE) ⊎ ((result ≡ WRONG_HANDLE) ⊎ ((result ≡ NOT_A_CARD) ⊎ (result ≡ NO_MEMORY))) }
{
    if card.is_full() {
        return WRONG_HANDLE;
    }
    match opened(alloc, image) {
        Ok(held) => {
            card.put(held);
            DONE
        }
        Err(status) => status,
    }
}

/// Answers a command, and leaves the card where the table machine goes.
#[unsafe(no_mangle)]
pub extern "C" fn huwapire_answer(
    alloc: Heap,
    card: &mut Handle,
    command: &[u8],
    reply: &mut [u8],
    count: &mut usize,
) -> u32
    ensures { CallsHeld (AnswersCall command.now reply.old reply.new count.old count.new) ((reply.new ≡ reply.old) × (count.new ≡ count.old)) card.old.bare.held card.new.bare.held result }
{
    match card.take(alloc) {
        Some(mut held) => {
            let status = held.answer(command, reply, count);
            card.put(held);
            status
        }
        None => WRONG_HANDLE,
    }
}

/// Ends all sessions, and undoes an open transaction. Channel 0 is then open, without a user.
#[unsafe(no_mangle)]
pub extern "C" fn huwapire_reset(alloc: Heap, card: &mut Handle) -> u32
    ensures { CallsHeld Resets (Unit {0}) card.old.bare.held card.new.bare.held result }
{
    match card.take(alloc) {
        Some(mut held) => {
            let status = held.reset();
            card.put(held);
            status
        }
        None => WRONG_HANDLE,
    }
}

/// Resets the card, and gives it a terminal: on channel 0, with room for so many octets of a line's text. More is taken where a text is longer.
#[unsafe(no_mangle)]
pub extern "C" fn huwapire_terminal(alloc: Heap, card: &mut Handle, room: usize) -> u32
    ensures { CallsHeld (SitsDown room) (Unit {0}) card.old.bare.held card.new.bare.held result }
{
    match card.take(alloc) {
        Some(mut held) => {
            let status = held.sit(alloc, room);
            card.put(held);
            status
        }
        None => WRONG_HANDLE,
    }
}

/// Carries out a line as a statement, as a terminal does, and keeps its text.
#[unsafe(no_mangle)]
pub extern "C" fn huwapire_line(alloc: Heap, card: &mut Handle, line: &[u8]) -> u32
    ensures { CallsHeld (CarriesOut line.now) (Unit {0}) card.old.bare.held card.new.bare.held result }
{
    match card.take(alloc) {
        Some(mut held) => {
            let status = held.line(line);
            card.put(held);
            status
        }
        None => WRONG_HANDLE,
    }
}

/// How many octets the text of the last line has.
#[unsafe(no_mangle)]
pub extern "C" fn huwapire_text_size(alloc: Heap, card: &mut Handle, size: &mut usize) -> u32
    ensures { TellsCount (λ held. length (text_of held.bench)) size.old size.new card.old.bare.held card.new.bare.held result }
{
    match card.take(alloc) {
        Some(held) => {
            *size = held.text_size();
            card.put(held);
            DONE
        }
        None => WRONG_HANDLE,
    }
}

/// Gives the text of the last line.
#[unsafe(no_mangle)]
pub extern "C" fn huwapire_text(
    alloc: Heap,
    card: &mut Handle,
    text: &mut [u8],
    count: &mut usize,
) -> u32
    ensures { LooksAt (CopiesText text.old text.new count.old count.new) ((text.new ≡ text.old) × (count.new ≡ count.old)) card.old.bare.held card.new.bare.held result }
{
    match card.take(alloc) {
        Some(held) => {
            let status = held.copy_text(text, count);
            card.put(held);
            status
        }
        None => WRONG_HANDLE,
    }
}

/// How many octets the image has.
#[unsafe(no_mangle)]
pub extern "C" fn huwapire_size(alloc: Heap, card: &mut Handle, size: &mut usize) -> u32
    ensures { TellsCount (λ held. length (image_of held.bench)) size.old size.new card.old.bare.held card.new.bare.held result }
{
    match card.take(alloc) {
        Some(held) => {
            *size = held.image().len();
            card.put(held);
            DONE
        }
        None => WRONG_HANDLE,
    }
}

/// Gives the image, into as many octets as it has.
#[unsafe(no_mangle)]
pub extern "C" fn huwapire_image(alloc: Heap, card: &mut Handle, image: &mut [u8]) -> u32
    ensures { LooksAt (CopiesImage image.old image.new) (image.new ≡ image.old) card.old.bare.held card.new.bare.held result }
{
    match card.take(alloc) {
        Some(held) => {
            let status = held.copy_image(image);
            card.put(held);
            status
        }
        None => WRONG_HANDLE,
    }
}

/// How many writes the last call made, to be made to the lasting image before its reply goes out.
#[unsafe(no_mangle)]
pub extern "C" fn huwapire_writes(alloc: Heap, card: &mut Handle, count: &mut usize) -> u32
    ensures { TellsCount (λ held. length (writes_of held.bench)) count.old count.new card.old.bare.held card.new.bare.held result }
{
    match card.take(alloc) {
        Some(held) => {
            *count = held.writes();
            card.put(held);
            DONE
        }
        None => WRONG_HANDLE,
    }
}

/// The write of that number, the first being 0: its place, and its octets.
#[unsafe(no_mangle)]
pub extern "C" fn huwapire_write(
    alloc: Heap,
    card: &mut Handle,
    write: usize,
    at: &mut usize,
    octets: &mut [u8],
    count: &mut usize,
) -> u32
    ensures { LooksAt (CopiesWrite write at.old at.new octets.old octets.new count.old count.new) ((at.new ≡ at.old) × (octets.new ≡ octets.old) × (count.new ≡ count.old)) card.old.bare.held card.new.bare.held result }
{
    match card.take(alloc) {
        Some(held) => {
            let status = held.write(write, at, octets, count);
            card.put(held);
            status
        }
        None => WRONG_HANDLE,
    }
}

/// Lets go of the card. The handle is empty then.
#[unsafe(no_mangle)]
pub extern "C" fn huwapire_close(alloc: Heap, card: &mut Handle)
    ensures { card.new.bare.held ≡ None }
{
    let _ = card.take(alloc);
}

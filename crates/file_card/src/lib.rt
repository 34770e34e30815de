//! Files that cards are in, and the card of one, opened and put into a box of its own: what the programs with more than one card do with each file.
#![tactic(auto)]

ghost use Rattle.std.specs.Prelude.{◌≡◌, IfOk, IsTrue, None};
ghost use Rattle.scql_model.specs.Machine.{Machine};
ghost use Rattle.file_card.specs.Opening as opening;

use card::{Card, OpenRefusal, SlotCard};
use card_link::CardLink;
use file_bench::FileBench;
use program::{Ending, ProgramEnd, Status};

/// Opens the file that a word of the command line, counted from 0, names; or tells how a program ends where it can't.
pub fn open_file(
    rt: &HostRuntime,
    word: usize,
    path: &str,
) -> Result<FileBench<HostRuntime>, ProgramEnd> {
    FileBench::open(rt.clone()?, path, false).map_err(|fault| Ending::from(fault).over(word))
}

/// The card of an open file that a word of the command line names, in a box of its own; or how a program ends where the file holds none, can't be read, or
/// there is no memory.
pub fn card_in(
    rt: &HostRuntime,
    word: usize,
    mut bench: FileBench<HostRuntime>,
) -> Result<Box<SlotCard<FileBench<HostRuntime>>>, ProgramEnd>
    ensures live { IfOk result (λ card. IsTrue (⟦<SlotCard<FileBench<HostRuntime>> as CardLink>⟧.is_live card.value)) }
    ensures closed { IfOk result (λ card. (m : Machine) → ⟦<SlotCard<FileBench<HostRuntime>> as CardLink>⟧.is_at card.value m → m.transaction ≡ None) }
{
    match Card::open(rt.alloc(), &mut bench) {
        Ok(card) => boxed(rt, SlotCard::new(card, bench)),
        Err(refusal) => Err(ending_of(refusal).over(word)),
    }
}

fn boxed(
    rt: &HostRuntime,
    card: SlotCard<FileBench<HostRuntime>>,
) -> Result<Box<SlotCard<FileBench<HostRuntime>>>, ProgramEnd>
    ensures { IfOk result (λ boxed. boxed.value ≡ card) }
{
    match Box::new(rt.alloc(), card) {
        Ok(boxed) => Ok(boxed),
        Err(_) => Err(Ending::Run(Status::NoMemory).into()),
    }
}

// How a program ends where a card doesn't open.
fn ending_of(refusal: OpenRefusal) -> Ending
    ensures { result ≡ opening.ending_of refusal }
{
    Ending::Run(match refusal {
        OpenRefusal::NoMemory => Status::NoMemory,
        OpenRefusal::NotACard => Status::NotACard,
        OpenRefusal::Fault => Status::Eeprom,
    })
}

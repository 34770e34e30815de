//! The program `ram_card`: a card of 64 cells whose EEPROM is memory, with standard input and output as its reader.
#![tactic(auto)]

ghost use Rattle.std.specs.Prelude.{◌≡◌, true, IfOk, IsOkUnless};
ghost use Rattle.program.specs.declared.status.Status.TheVariants.{NoMemory};
ghost use Rattle.program.specs.declared.ending.Ending.TheVariants.{Run};
ghost use Rattle.ram_card.specs.RamEnds.{ends_in_memory};

mod ram;

use card_run::run_card;
use file_bench::StdSource;
use person::Watcher;
use program::{About, Ending, ProgramEnd, Status, run_program};
use ram::RamBench;
use std::io::Stderr;
use std::process::ExitCode;

fn main(rt: HostRuntime) -> ExitCode {
    run_program(&rt, ABOUT, run_words)
}

fn run_words(rt: &HostRuntime, words: &[String]) -> ProgramEnd {
    if words.is_empty() {
        ProgramEnd::of_run(run_in_memory(rt).map_err(ProgramEnd::from))
    } else {
        ProgramEnd::from(Ending::Run(Status::Usage))
    }
}

// Makes a card, and answers the lines of the input. The card is gone at the end.
fn run_in_memory(rt: &HostRuntime) -> Result<Status, Ending>
    // The EEPROM has room for the card, gives back what was written, and doesn't fail: the streams may, and memory may be wanting.
    ensures ends { IfOk result (λ status. ends_in_memory status ≡ true) }
    ensures without { IsOkUnless result (Run NoMemory) }
{
    let words = [
        String::from_str(rt.alloc(), "new")?,
        String::from_str(rt.alloc(), "64")?,
    ];
    let mut source = StdSource::new(rt.clone()?);
    let mut bench = RamBench::new(rt.clone()?);
    let mut nobody = Watcher::<Stderr>::new(None);
    Ok(run_card(rt.alloc(), &words, &mut source, &mut bench, &mut nobody))
}

const ABOUT: About = About {
    name: "ram_card",
    usage: "usage: ram_card",
    help: HELP,
    version: "ram_card 0.1.0",
};

const HELP: &str = "usage: ram_card

A relational database in a smart card of 64 cells, whose EEPROM is memory: an
example of an EEPROM of one's own. It makes the card, and answers each line of
standard input, a command in hexadecimal. At the end the card is gone.

Exit status: 0 done, 2 usage, 4 read fault, 5 write fault, 7 no memory, 8 input
too long.";

//! The program `card_copy`: copies what a card shows into a table of another card. The EEPROMs of both are files.
#![tactic(auto)]

use copy_run::{are_names, run_copy};
use file_bench::StdOutlet;
use file_card::{card_in, open_file};
use person::Watcher;
use program::{About, Ending, ProgramEnd, Status, hold_streams, run_program};
use reader_rack::Rack;
use std::io::{IsTerminal, Stderr};
use std::process::ExitCode;

#[cfg(test)]
mod tests;

fn main(rt: HostRuntime) -> ExitCode {
    run_program(&rt, ABOUT, run_words)
}

fn run_words(rt: &HostRuntime, words: &[String]) -> ProgramEnd {
    match words {
        [from, to, names @ ..] if from.as_str() != to.as_str() && are_names(names) => {
            ProgramEnd::of_run(run_over(rt, from, to, names))
        }
        _ => ProgramEnd::from(Ending::Run(Status::Usage)),
    }
}

// Copies between the cards of these files. Both files are opened before the first card is.
fn run_over(
    rt: &HostRuntime,
    from: &str,
    to: &str,
    names: &[String],
) -> Result<Status, ProgramEnd> {
    let _streams = hold_streams(rt);
    let source = open_file(rt, 0, from)?;
    let dest = open_file(rt, 1, to)?;
    let source = card_in(rt, 0, source)?;
    let dest = card_in(rt, 1, dest)?;
    let mut rack = Rack::new(StdOutlet::new(rt.clone()?));
    // Neither reader holds a link yet.
    let _ = rack.insert(1, source);
    let _ = rack.insert(2, dest);
    let mut person = Watcher::new(watching_screen(rt));
    Ok(run_copy(names, &mut rack, &mut person).into())
}

// Standard error, where a person watches.
fn watching_screen(rt: &HostRuntime) -> Option<Stderr> {
    if rt.stderr().is_terminal() {
        Some(rt.stderr())
    } else {
        None
    }
}

const ABOUT: About = About {
    name: "card_copy",
    usage: "usage: card_copy FILE1 FILE2 SUSER OBJECT DUSER TABLE",
    help: HELP,
    version: "card_copy 0.1.0",
};

const HELP: &str = "usage: card_copy FILE1 FILE2 SUSER OBJECT DUSER TABLE

Copies the rows that the card in FILE1 shows user SUSER of a table or view
OBJECT into TABLE of the card in FILE2, as user DUSER there: all of them, or
none. No secret is given, so that neither user is proved. The rows are added
behind those that TABLE has. One line says how it ended:

copied R rows             they are in TABLE
source refused XXXX       the card in FILE1 refused with this status word
destination refused XXXX  the card in FILE2 did
source mute               the card in FILE1 failed
destination mute          the card in FILE2 failed: it has all rows or none

Exit status: 0 copied, 1 refused, 2 usage, 3 EEPROM fault, 5 write fault,
6 not a card, 7 no memory, 10 no file, or a held one.";

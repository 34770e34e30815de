//! The program `card_cli`: a card whose EEPROM is a file, with standard input and output as its reader.
#![tactic(auto)]

use card_run::run_card;
use file_bench::{FileBench, StdSource};
use person::{Prompted, Watcher};
use program::{About, Ending, ProgramEnd, Status, hold_streams, run_program};
use std::fs;
use std::io::{IsTerminal, Stderr};
use std::process::ExitCode;

fn main(rt: HostRuntime) -> ExitCode {
    run_program(&rt, ABOUT, run_words)
}

fn run_words(rt: &HostRuntime, words: &[String]) -> ProgramEnd {
    match words.split_first() {
        Some((path, rest)) => ProgramEnd::of_run_over(0, run_over(rt, path, rest)),
        None => ProgramEnd::from(Ending::Run(Status::Usage)),
    }
}

fn run_over(rt: &HostRuntime, path: &str, words: &[String]) -> Result<Status, Ending> {
    let create = words.first().is_some_and(|word| word.as_str() == "new");
    let _streams = hold_streams(rt);
    if create {
        say_what_goes(rt, path);
    }
    let mut bench = FileBench::open(rt.clone()?, path, create)?;
    let mut source = Prompted::new(
        StdSource::new(rt.clone()?),
        stderr_where(rt, is_typed(rt, words)),
    );
    let is_watched = is_watched(rt, words);
    let mut person = Watcher::of_session(
        stderr_where(rt, is_watched),
        is_watched && rt.stdin().is_terminal(),
        path,
    );
    Ok(run_card(rt.alloc(), words, &mut source, &mut bench, &mut person))
}

// Tells a person of a file that is there already, before a new card is made in it. It isn't inlined, so that what is put together for that has its place
// only until it is said.
#[inline(never)]
fn say_what_goes(rt: &HostRuntime, path: &str) {
    if rt.stderr().is_terminal() && fs::metadata(rt, path).is_ok_and(|found| found.len() != 0) {
        // Where that can't be said, the card is made all the same.
        let _ = eprintln!(rt; "{path}: is there already; a new card replaces what it holds");
    }
}

// Standard error, where a person reads it.
fn stderr_where(rt: &HostRuntime, is_read: bool) -> Option<Stderr> {
    if is_read { Some(rt.stderr()) } else { None }
}

// Whether a person types statements, and reads what comes of them.
fn is_typed(rt: &HostRuntime, words: &[String]) -> bool {
    words.first().is_some_and(|word| word.as_str() == "term")
        && rt.stdin().is_terminal()
        && rt.stdout().is_terminal()
}

// Whether a person watches a load, or is told of statements.
fn is_watched(rt: &HostRuntime, words: &[String]) -> bool {
    words
        .first()
        .is_some_and(|word| word.as_str() == "load" || word.as_str() == "term")
        && rt.stderr().is_terminal()
}

const ABOUT: About = About {
    name: "card_cli",
    usage: "usage: card_cli FILE (new N | apdu | term | check | load K SEED | migrate)",
    help: HELP,
    version: "card_cli 0.1.0",
};

const HELP: &str = "usage: card_cli FILE (new N | apdu | term | check | load K SEED | migrate)

A relational database in a smart card, whose EEPROM is FILE.

new N        makes a card of N cells (16 to 2048), then as apdu
apdu         answers each line of standard input, a command in hexadecimal
term         runs each line of standard input, a statement
check        counts what the card holds
load K SEED  fills a table with K rows (0 to 1000) made from SEED (0 to
             65535), changes and reads it, and counts what came of it
migrate      lets the rows of the card be longer: up to 1020 octets, not 240

FILE is created by new alone. Exit status: 0 done, 1 refused, 2 usage,
3 EEPROM fault, 4 read fault, 5 write fault, 6 not a card, 7 no memory,
8 input too long, 9 image too small, 10 no file, or a held one.";

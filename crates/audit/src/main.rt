//! The program `audit`: says whether a card answered as it has to, from its image before, a transcript of what it was asked and what it said, and its image afterwards.
#![tactic(auto)]

mod auditor;

use audit_run::run_audit;
use auditor::Auditor;
use file_bench::{FileSource, StdOutlet};
use person::Watcher;
use program::{About, Ending, ProgramEnd, Status, hold_streams, run_program};
use std::fs;
use std::io::{IsTerminal, Stderr};
use std::process::ExitCode;

fn main(rt: HostRuntime) -> ExitCode {
    run_program(&rt, ABOUT, run_words)
}

fn run_words(rt: &HostRuntime, words: &[String]) -> ProgramEnd {
    match words {
        [first, transcript, last] => ProgramEnd::of_run(run_over(rt, first, transcript, last)),
        _ => ProgramEnd::from(Ending::Run(Status::Usage)),
    }
}

// Audits what these files hold. All of them are opened before the first is read.
fn run_over(
    rt: &HostRuntime,
    first: &str,
    transcript: &str,
    last: &str,
) -> Result<Status, ProgramEnd> {
    let _streams = hold_streams(rt);
    let mut first = source_in(rt, first).map_err(|ending| ending.over(0))?;
    let mut transcript = source_in(rt, transcript).map_err(|ending| ending.over(1))?;
    let mut last = source_in(rt, last).map_err(|ending| ending.over(2))?;
    let mut outlet = StdOutlet::new(rt.clone()?);
    let mut person = Watcher::new(watching_screen(rt));
    let status = run_audit::<Auditor, _, _, _>(
        rt.alloc(),
        &mut first,
        &mut transcript,
        &mut last,
        &mut outlet,
        &mut person,
    );
    Ok(status.into())
}

// Opens a file. A folder, which would open too, is none.
fn source_in(rt: &HostRuntime, path: &str) -> Result<FileSource<HostRuntime>, Ending> {
    match fs::metadata(rt, path) {
        Ok(found) if !found.is_dir() => Ok(FileSource::open(rt.clone()?, path)?),
        _ => Err(Ending::NoFile),
    }
}

// Standard error, where a person watches.
fn watching_screen(rt: &HostRuntime) -> Option<Stderr> {
    if rt.stderr().is_terminal() {
        Some(rt.stderr())
    } else {
        None
    }
}

const ABOUT: About = About {
    name: "audit",
    usage: "usage: audit IMAGE TRANSCRIPT IMAGE",
    help: HELP,
    version: "audit 0.1.0",
};

const HELP: &str = "usage: audit IMAGE TRANSCRIPT IMAGE

Says whether a card answered as it has to: the first file is its image before,
the last one its image afterwards, and the transcript has what it was asked,
each line behind \"> \", and what it said to that, behind \"< \" on the next
line. The files are only read. One line tells the first of these that applies:

not a card        the first image is no card's
malformed at K    line K has no mark, or answers no line before it
differs at K      to line K a card says something else
image differs     the last image doesn't hold what was committed
yes K             all is as it has to be, with K lines that were asked

Exit status: 0 yes, 1 any other verdict, 2 usage, 4 read fault, 5 write fault,
7 no memory, 8 input too long, 10 no file.";

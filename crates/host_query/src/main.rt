//! The program `host_query`: queries over two or three objects of a card, joined on the host. The card's EEPROM is a file.
#![tactic(auto)]

use file_bench::{FileBench, StdSource};
use person::{Prompted, Watcher};
use program::{About, Ending, ProgramEnd, Status, hold_streams, run_program};
use query_run::run_query;
use scql_base::Name;
use std::io::{IsTerminal, Stderr};
use std::process::ExitCode;

fn main(rt: HostRuntime) -> ExitCode {
    run_program(&rt, ABOUT, run_words)
}

fn run_words(rt: &HostRuntime, words: &[String]) -> ProgramEnd {
    match words {
        [path, user] => match Name::read(user.as_bytes()) {
            Some(user) => ProgramEnd::of_run_over(0, run_over(rt, path, user)),
            None => ProgramEnd::from(Ending::Run(Status::Usage)),
        },
        _ => ProgramEnd::from(Ending::Run(Status::Usage)),
    }
}

fn run_over(rt: &HostRuntime, path: &str, user: Name) -> Result<Status, Ending> {
    let _streams = hold_streams(rt);
    let mut bench = FileBench::open(rt.clone()?, path, false)?;
    let mut source = Prompted::new(StdSource::new(rt.clone()?), stderr_where(rt, is_typed(rt)));
    let is_read = rt.stderr().is_terminal();
    let person = Watcher::new(stderr_where(rt, is_read));
    let types = rt.stdin().is_terminal();
    let notices = Watcher::of_session(stderr_where(rt, is_read), types, path);
    let (status, _, _) = run_query(rt.alloc(), user, &mut source, &mut bench, person, notices);
    Ok(status.into())
}

// Standard error, where a person reads it.
fn stderr_where(rt: &HostRuntime, is_read: bool) -> Option<Stderr> {
    if is_read { Some(rt.stderr()) } else { None }
}

// Whether a person types queries, and reads what comes of them.
fn is_typed(rt: &HostRuntime) -> bool {
    rt.stdin().is_terminal() && rt.stdout().is_terminal()
}

const ABOUT: About = About {
    name: "host_query",
    usage: "usage: host_query FILE USER",
    help: HELP,
    version: "host_query 0.1.0",
};

const HELP: &str = "usage: host_query FILE USER

Answers each line of standard input, a query over two or three tables or views
of the card in FILE, from what the card shows user USER:

SELECT col {, col} FROM name, name [, name] [WHERE col = col {AND col = col}]
       [ORDER BY col {, col}]          with col = name.name

Rows are fetched from the card, and joined and put in order here; no query
changes the card. No secret is given, so that a user with one isn't proved.

Exit status: 0 done, 1 refused, 2 usage, 3 EEPROM fault, 4 read fault,
5 write fault, 6 not a card, 7 no memory, 8 input too long, 10 no file, or a
held one.";

// A program from its first word to its exit status.
use crate::words::command_line;
use crate::{About, Ending, ProgramEnd, Status};
use std::io;
use std::process::ExitCode;

/// Runs a program. Where its only word is `--help` or `--version` it answers that, and else it runs over its words. Where something was wrong it says so in
/// a line on standard error, behind its name and, where one is meant, the name of a file.
pub fn run_program<F: FnOnce(&HostRuntime, &[String]) -> ProgramEnd>(
    rt: &HostRuntime,
    about: About,
    run: F,
) -> ExitCode
    requires { F.IsAlwaysCallable run }
{
    let words = match command_line(rt) {
        Ok(words) => words,
        Err(ending) => return end(rt, about, &[], ending.into()),
    };
    let ended = match about.answer(rt, &words) {
        Some(status) => ProgramEnd::from(Ending::Run(status)),
        None => run(rt, &words),
    };
    end(rt, about, &words, ended)
}

// Ends by the exit status, behind a line on standard error where there is one.
fn end(rt: &HostRuntime, about: About, words: &[String], ended: ProgramEnd) -> ExitCode {
    if let Some(message) = ended.ending.message(about.usage) {
        // Where standard error takes nothing, the exit status says the same.
        let _ = say(rt, about, words, ended, message);
    }
    ExitCode::from(ended.ending.number())
}

fn say(
    rt: &HostRuntime,
    about: About,
    words: &[String],
    ended: ProgramEnd,
    message: &str,
) -> io::Result<()> {
    if ended.ending == Ending::Run(Status::Usage) {
        return rt.eprintln(message);
    }
    match file_meant(words, ended) {
        Some(file) => eprintln!(rt; "{}: {file}: {message}", about.name),
        None => eprintln!(rt; "{}: {message}", about.name),
    }
}

// The file of which the message speaks.
fn file_meant(words: &[String], ended: ProgramEnd) -> Option<&str> {
    if !ended.ending.is_of_file() {
        return None;
    }
    let word = words.get(ended.word?)?;
    Some(word.as_str())
}

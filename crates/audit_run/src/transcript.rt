// A transcript, line by line.
ghost use Rattle.std.specs.Prelude.{◌≡◌, length};
ghost use Rattle.audit_run.specs.Transcript as model;
ghost use Rattle.audit_run.specs.Entries.{entry_seen};

use line_input::first_line;

/// What a line is of a transcript.
#[derive(Clone, Copy)]
pub(crate) enum Entry<'a> {
    /// What was asked.
    Input(&'a [u8]),
    /// What was said.
    Output(&'a [u8]),
    /// It has neither mark.
    Neither,
}

impl<'a> Entry<'a> {
    pub(crate) fn of(line: &'a [u8]) -> Entry<'a>
        ensures { entry_seen result ≡ model.entry_of line.now }
    {
        match line {
            [b'>', b' ', text @ ..] => Entry::Input(text),
            [b'<', b' ', text @ ..] => Entry::Output(text),
            _ => Entry::Neither,
        }
    }

    fn is_input(self) -> bool
        ensures { result ≡ model.is_input (entry_seen self.entry) }
    {
        matches!(self, Entry::Input(_))
    }

    // Whether it may stand there: behind a line of input, or behind none.
    fn is_formed(self, behind_input: bool) -> bool
        ensures { result ≡ model.is_formed behind_input (entry_seen self.entry) }
    {
        match self {
            Entry::Input(_) => true,
            Entry::Output(_) => behind_input,
            Entry::Neither => false,
        }
    }
}

/// The number of the first line that has neither mark, or is one of output that no line of input stands right before.
pub(crate) fn first_malformed(transcript: &[u8]) -> Option<u64>
    ensures { result ≡ model.malformed transcript.now }
{
    let mut number = 1;
    let mut behind_input = false;
    let mut rest = transcript;
    while let Some((line, behind)) = first_line(rest) {
        let entry = Entry::of(line);
        if !entry.is_formed(behind_input) {
            return Some(number);
        }
        behind_input = entry.is_input();
        rest = behind;
        number += 1;
    }
    None
}

/// How many lines of input there are.
pub(crate) fn count_inputs(transcript: &[u8]) -> u64
    ensures { result ≡ length (model.exchanges transcript.now) }
{
    let mut count = 0;
    let mut rest = transcript;
    while let Some((line, behind)) = first_line(rest) {
        if Entry::of(line).is_input() {
            count += 1;
        }
        rest = behind;
    }
    count
}

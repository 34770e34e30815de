// What was told is held against what a machine says.
ghost use Rattle.std.specs.Prelude.{◌≡◌, ◌++◌, ◌∷◌, [], Some, true};
ghost use Rattle.std.specs.Str.{bytes_eq};
ghost use Rattle.person.specs.Showing.{Shows};
ghost use Rattle.scql_model.specs.Machine.{Machine};
ghost use Rattle.scql_model.specs.Lines.{command_lines, content_effect, content_of, line_step, line_text, lines, reply_text};
ghost use Rattle.scql_model.specs.Step.{step};
ghost use Rattle.audit_run.specs.Transcript as model;
ghost use Rattle.audit_run.specs.Verdicts.{agreement};
ghost use Rattle.audit_run.specs.Found.{IsFound};
ghost use Rattle.audit_run.specs.Progress.{lines_passed, passed_text};

use crate::Answering;
use crate::progress::PASSED;
use crate::transcript::Entry;
use apdu::{LONGEST_COMMAND, LONGEST_REPLY_LINE, LineContent, Reply, read_line, write_reply};
use arrayvec::ArrayVec;
use line_input::first_line;
use person::Person;
use scql_base::StatusWord;
use taken_line::TakenLine;

// Places for a command, the reply to it, and its text.
#[derive(Drop)]
struct Places {
    command: [u8; LONGEST_COMMAND],
    reply: Reply,
    text: [u8; LONGEST_REPLY_LINE],
}

impl Places {
    fn new() -> Places {
        Places {
            command: [0; LONGEST_COMMAND],
            reply: Reply {
                body: ArrayVec::new(),
                word: StatusWord::DONE,
            },
            text: [0; LONGEST_REPLY_LINE],
        }
    }

    // The reply in hexadecimal, with a line feed.
    fn reply_text(&mut self) -> &[u8]
        ensures { result.now ≡ reply_text self.old.reply }
    {
        let size = write_reply(&mut self.text, &self.reply);
        &self.text[..size]
    }
}

/// The number of the first line of input to which the machine says something else than is told. A person is shown how many lines stand before it.
pub(crate) fn first_difference<A: Answering, P: Person>(
    machine: &mut A,
    transcript: &[u8],
    person: &mut P,
) -> Option<u64>
    ensures found { (m : Machine) → A.stands_for machine.old m → IsFound (A.stands_for machine.new) (agreement m (model.exchanges transcript.now)) result }
    ensures watched { Shows P.lost P.shown (passed_text (lines_passed transcript.now result)) person.old person.new }
{
    let mut places = Places::new();
    let mut passed = 0;
    let mut rest = transcript;
    while let Some((line, behind)) = first_line(rest) {
        if let Entry::Input(asked) = Entry::of(line) {
            let said = answer(machine, asked, &mut places);
            if !is_told(behind, said) {
                PASSED.end(passed, person);
                return Some(passed + 1);
            }
        }
        PASSED.show(passed, passed + 1, person);
        passed += 1;
        rest = behind;
    }
    PASSED.end(passed, person);
    None
}

// Whether the next line tells this text.
fn is_told(rest: &[u8], text: &[u8]) -> bool
    ensures { result ≡ bytes_eq text.now (model.told_by (lines rest.now true)) }
{
    match first_line(rest) {
        Some((line, _)) => match Entry::of(line) {
            Entry::Output(told) => is_line(text, told),
            Entry::Input(_) | Entry::Neither => text.is_empty(),
        },
        None => text.is_empty(),
    }
}

// Whether a text is a line of these octets.
fn is_line(text: &[u8], octets: &[u8]) -> bool
    ensures { result ≡ bytes_eq text.now (octets.now ++ 0x0A ∷ []) }
{
    match text.strip_prefix(octets) {
        Some(end) => end == b"\n".as_slice(),
        None => false,
    }
}

// What a machine says to a line.
#[tactic(auto, unfolding(scql_model::specs::Lines::line_text, scql_model::specs::Lines::line_step))]
fn answer<'a, A: Answering>(machine: &mut A, line: &[u8], places: &'a mut Places) -> &'a [u8]
    ensures text { (m : Machine) → A.stands_for machine.old m → result.now ≡ line_text command_lines m line.now }
    ensures machine { (m : Machine) → A.stands_for machine.old m → A.stands_for machine.new (line_step command_lines m line.now) }
{
    match read_line(
        TakenLine::octets_of(TakenLine::of(line)),
        &mut places.command,
    ) {
        LineContent::Nothing => b"",
        LineContent::TooLong => b"line too long\n",
        LineContent::Reset => {
            machine.reset();
            b"reset\n"
        }
        LineContent::NotHexadecimal => b"not hexadecimal\n",
        LineContent::Command { size } => {
            machine.step(&places.command[..size], &mut places.reply);
            places.reply_text()
        }
    }
}

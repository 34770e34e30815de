// The lines of a whole source.
ghost use Rattle.std.specs.Prelude.{◌≡◌, false, OnOk, IfErr};
ghost use Rattle.line_input.specs.Cutting.{is_empty_line, last_lines};
ghost use Rattle.line_input.specs.Line.{line_octets};
ghost use Rattle.line_input.specs.Reading.{IsRead, CountsSource, UnlessStopped};

use crate::LineAnswerer;
use crate::cutting::take_octets;
use crate::line::Line;
use eeprom::Source;

/// How many octets of input are taken.
pub const LONGEST_INPUT: usize = 67_108_864;

/// How many octets are asked for at a time.
const PIECE: usize = 512;

/// How the lines of an input came to an end.
#[derive(Drop, Clone, PartialEq, Eq, Debug)]
pub enum InputEnd<E> {
    /// The input was read to its end, and each of its lines was answered.
    Ended,
    /// The source failed.
    ReadFault,
    /// The input has more than 67,108,864 octets. The lines that these end were answered.
    TooLong,
    /// The answerer stopped.
    Stopped(E),
}

/// Answers the lines of a source, each as soon as it came in whole. What stands behind the last line feed is a line where it has an octet.
pub fn answer_lines<S: Source, A: LineAnswerer>(
    source: &mut S,
    answerer: &mut A,
) -> InputEnd<A::Stop>
    requires { A.is_ready answerer.old }
    ensures read { IsRead A.answers A.stops result answerer.old answerer.new (S.left source.old) (S.left source.new) }
    ensures ready { UnlessStopped result (A.is_ready answerer.new) }
    ensures source { CountsSource result (S.source_faults source.old) (S.source_faults source.new) }
{
    let mut line = Line::new();
    let mut piece = [0; PIECE];
    let mut room = LONGEST_INPUT;
    loop {
        let Ok(count) = source.read(&mut piece) else {
            return InputEnd::ReadFault;
        };
        if count == 0 {
            return match answer_last(answerer, &line) {
                Ok(()) => InputEnd::Ended,
                Err(stop) => InputEnd::Stopped(stop),
            };
        }
        let taken = count.min(room);
        if let Err(stop) = take_octets(answerer, &mut line, &piece[..taken]) {
            return InputEnd::Stopped(stop);
        }
        if room < count {
            return InputEnd::TooLong;
        }
        room -= count;
    }
}

// Where the input ends behind octets without a line feed, they are a line.
fn answer_last<A: LineAnswerer>(answerer: &mut A, line: &Line) -> Result<(), A::Stop>
    requires { A.is_ready answerer.old }
    ensures answered { OnOk result (A.answers answerer.old (last_lines (line_octets line.now)) answerer.new) }
    ensures stopped { IfErr result (λ stop. (is_empty_line (line_octets line.now) ≡ false) × A.stops answerer.old (line_octets line.now) stop answerer.new) }
    ensures ready { OnOk result (A.is_ready answerer.new) }
{
    if line.is_empty() {
        return Ok(());
    }
    answerer.answer(line.taken())
}

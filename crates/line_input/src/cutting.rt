// Octets cut at each line feed.
ghost use Rattle.std.specs.Prelude.{◌≡◌, ◌<◌, ◌++◌, ◌∷◌, [], true, None, length, take, slice_index, IfSome, OnOk, IfErr};
ghost use Rattle.scql_model.specs.Lines.{lines};
ghost use Rattle.line_input.specs.Answering.{Feeds, Halts, LacksLineFeed};
ghost use Rattle.line_input.specs.Line.{line_octets};

use crate::LineAnswerer;
use crate::line::Line;
use taken_line::TakenLine;

/// Takes octets behind a line that has begun: each line feed ends a line, which is answered. Where the answerer stops, the octets
/// behind that line aren't looked at, and the line isn't begun anew.
pub fn take_octets<A: LineAnswerer>(
    answerer: &mut A,
    line: &mut Line,
    octets: &[u8],
) -> Result<(), A::Stop>
    requires ready { A.is_ready answerer.old }
    ensures feeds { OnOk result (Feeds A.answers octets.now answerer.old (line_octets line.old) answerer.new (line_octets line.new)) }
    ensures halts { IfErr result (λ stop. Halts A.answers A.stops octets.now answerer.old (line_octets line.old) stop answerer.new) }
    ensures ready { OnOk result (A.is_ready answerer.new) }
{
    let mut rest = octets;
    while let Some(end) = line_end(rest) {
        end_line(answerer, line, &rest[..end])?;
        rest = &rest[end + 1..];
    }
    line.extend(rest);
    Ok(())
}

/// The first line of octets behind which no more come, and what stands behind its line feed.
pub fn first_line(octets: &[u8]) -> Option<(&[u8], &[u8])>
    ensures line { IfSome result (λ cut. lines octets.now true ≡ cut.0.now ∷ lines cut.1.now true) }
    ensures shorter { IfSome result (λ cut. length cut.1.now < length octets.now) }
    ensures none { result ≡ None → lines octets.now true ≡ [] }
{
    if octets.is_empty() {
        return None;
    }
    match line_end(octets) {
        Some(end) => Some((&octets[..end], &octets[end + 1..])),
        None => Some((octets, &[])),
    }
}

// How many octets stand before the first line feed.
fn line_end(octets: &[u8]) -> Option<usize>
    ensures before { IfSome result (λ end. LacksLineFeed (take end octets.now)) }
    ensures found { IfSome result (λ end. slice_index octets.now end ≡ 0x0A) }
    ensures within { IfSome result (λ end. end < length octets.now) }
    ensures none { result ≡ None → LacksLineFeed octets.now }
{
    octets.iter().position(|octet| *octet == b'\n')
}

// Ends the line with its last octets, and answers it. Where none came before, they are answered where they stand.
fn end_line<A: LineAnswerer>(
    answerer: &mut A,
    line: &mut Line,
    octets: &[u8],
) -> Result<(), A::Stop>
    requires ready { A.is_ready answerer.old }
    requires last { LacksLineFeed octets.now }
    ensures feeds { OnOk result (Feeds A.answers (octets.now ++ 0x0A ∷ []) answerer.old (line_octets line.old) answerer.new (line_octets line.new)) }
    ensures halts { IfErr result (λ stop. Halts A.answers A.stops (octets.now ++ 0x0A ∷ []) answerer.old (line_octets line.old) stop answerer.new) }
    ensures ready { OnOk result (A.is_ready answerer.new) }
{
    if line.is_empty() {
        return answerer.answer(TakenLine::of(octets));
    }
    line.extend(octets);
    answerer.answer(line.taken())?;
    line.clear();
    Ok(())
}

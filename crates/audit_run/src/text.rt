// The line that tells a verdict.
ghost use Rattle.std.specs.Prelude.{◌≡◌, ◌++◌, ◌+◌, ◌≤◌, codes, length};
ghost use Rattle.std.specs.Fmt.{decimal};
ghost use Rattle.audit_run.specs.Verdicts as model;

use crate::Verdict;
use arrayvec::ArrayVec;
use itoa::Buffer;
use person::put;

// The longest line: its words, a number of at most 20 digits, and a line feed.
const LONGEST_LINE: usize = 34;

/// What is said of a verdict, on a line of its own.
pub(crate) fn verdict_text(verdict: Verdict) -> ArrayVec<u8, LONGEST_LINE>
    ensures { result.items ≡ model.verdict_text verdict }
{
    let mut line = ArrayVec::new();
    match verdict {
        Verdict::NotACard => put(&mut line, b"not a card\n"),
        Verdict::Malformed { line: number } => put_number(&mut line, b"malformed at ", number),
        Verdict::Differs { line: number } => put_number(&mut line, b"differs at ", number),
        Verdict::ImageDiffers => put(&mut line, b"image differs\n"),
        Verdict::Yes { lines } => put_number(&mut line, b"yes ", lines),
    }
    line
}

// Words and a number, on an empty line.
fn put_number(line: &mut ArrayVec<u8, LONGEST_LINE>, words: &[u8], number: u64)
    requires { length line.old.items + length words.now ≤ 13 }
    ensures { line.new.items ≡ line.old.items ++ (words.now ++ (decimal number ++ codes "\n")) }
{
    put(line, words);
    put(line, Buffer::new().format(number).as_bytes());
    line.push(b'\n');
}

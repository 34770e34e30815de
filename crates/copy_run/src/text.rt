// The line that says how a copy ended.
ghost use Rattle.std.specs.Prelude.{◌≡◌, ◌++◌, ◌+◌, ◌≤◌, length};
ghost use Rattle.planner.specs.declared.closing.Closing.TheVariants.{Refused};
ghost use Rattle.planner.specs.Text as planned;
ghost use Rattle.copy_run.specs.Copies as model;

use arrayvec::ArrayVec;
use person::{put, put_count};
use planner::Closing;
use scql_base::StatusWord;
use table_copy::CopyEnd;
use terminal::{LONGEST_CLOSING, closing_text};

/// The longest line: of which card it is said, and what.
pub(crate) const LONGEST_LINE: usize = 62;

/// How a copy ended, on a line of its own.
pub(crate) fn copy_text(end: CopyEnd) -> ArrayVec<u8, LONGEST_LINE>
    ensures { result.items ≡ model.copy_text end }
{
    let mut line = ArrayVec::new();
    match end {
        CopyEnd::Copied { rows } => {
            put_count(&mut line, b"copied ", rows);
            put(&mut line, b" rows\n");
        }
        CopyEnd::SourceRefused { word } => put_refusal(&mut line, b"source ", word),
        CopyEnd::DestRefused { word } => put_refusal(&mut line, b"destination ", word),
        CopyEnd::SourceMute => put(&mut line, b"source mute\n"),
        CopyEnd::DestMute => put(&mut line, b"destination mute\n"),
    }
    line
}

// A card refused something by this word, as a terminal says it.
fn put_refusal(line: &mut ArrayVec<u8, LONGEST_LINE>, card: &[u8], word: StatusWord)
    requires { length line.old.items + length card.now ≤ 12 }
    ensures { line.new.items ≡ line.old.items ++ (card.now ++ planned.closing_text (Refused word)) }
{
    put(line, card);
    put(line, &closing_text(Closing::Refused { word }));
}

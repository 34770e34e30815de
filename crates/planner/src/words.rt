// Which answers end a statement (ISO/IEC 7816-4, status bytes).
ghost use Rattle.std.specs.Prelude.{◌≡◌};
ghost use Rattle.planner.specs.Words as words;

use crate::Closing;
use scql_base::StatusWord;

/// 6282: there is no row any more.
pub(crate) fn is_end(word: StatusWord) -> bool
    ensures { result ≡ words.is_end word }
{
    word.word == StatusWord::END_REACHED.word
}

/// 61XX: an answer goes on.
pub(crate) fn has_more(word: StatusWord) -> bool
    ensures { result ≡ words.has_more word }
{
    word.word / 256 == 0x61
}

/// Any word but 9000, 6282 and 61XX.
pub(crate) fn is_refusal(word: StatusWord) -> bool
    ensures { result ≡ words.is_refusal word }
{
    let is_done = word.word == StatusWord::DONE.word;
    !(is_done || is_end(word) || has_more(word))
}

/// How a statement of one command ends by the answer to it.
pub(crate) fn closing_of(word: StatusWord) -> Closing
    ensures { result ≡ words.closing_of word }
{
    if is_refusal(word) {
        Closing::Refused { word }
    } else {
        Closing::Fine
    }
}

// What a session says of the lines of a grammar.
use crate::{Cells, Grammar, Message};
use scql_base::StatusWord;
use taken_line::TakenLine;

/// What a session says of the lines of a grammar, and what it remembers of them for that. Each puts one text behind a message, or nothing.
pub trait Dialect: Grammar {
    /// What one of its lines is called, as `statement`.
    fn kind(&self) -> &'static [u8];

    /// How its help is found.
    fn help(&self) -> &'static [u8];

    /// What is known of a line before it is carried out.
    fn before(&self, line: TakenLine<'_>, message: &mut Message);

    /// What goes with a line that was carried out.
    fn done(&mut self, line: TakenLine<'_>, message: &mut Message);

    /// Why a card refused a line by this word. The cells are those of its card.
    fn refused(
        &self,
        line: TakenLine<'_>,
        word: StatusWord,
        cells: Option<Cells>,
        message: &mut Message,
    );
}

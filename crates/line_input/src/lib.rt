//! Octets of input cut into lines, each of which is handed to an answerer as soon as it came in whole.
#![tactic(auto)]

mod answerer;
mod cutting;
mod input;
mod laws;
mod line;

pub use answerer::LineAnswerer;
pub use cutting::{first_line, take_octets};
pub use input::{InputEnd, answer_lines};
pub use laws::{
    lines_are_cut_as_they_come, lines_end_where_the_input_does, lines_end_with_their_feeds,
};
pub use line::Line;

#[cfg(test)]
mod tests;

//! The model: the definitions of databases, of the table machine and of what it answers, which the clauses of the other crates cite.
#![tactic(auto)]

mod laws;
mod written;

pub use laws::answers::{
    a_step_accepts_or_leaves_the_machine, an_answer_comes_of_its_cause,
    an_answer_says_what_it_changes, nothing_is_written_without_a_change,
};
pub use laws::changes::{a_change_keeps_a_database_valid, a_step_keeps_a_machine_valid};
pub use laws::lives::{a_life_is_a_fold, no_four_commits_of_a_life_lower_a_user_unrestored};
pub use laws::reading::{
    a_card_reads_what_is_shown, a_step_reads_what_is_shown, equal_shown_gives_equal_replies,
    objects_are_shown_by_their_names, reading_is_of_what_is_shown,
};
pub use laws::touched::no_answer_goes_by_what_is_touched;
pub use laws::views::{
    contents_are_those_of_the_kind, depth_is_one_more_than_the_base_has, views_are_seen_through,
};
pub use written::{
    operations_have_their_lines, parts_are_the_least, parts_that_are_written_are_read_back,
    what_is_written_is_read_back,
};

// What is printed of a query's answer.
ghost use Rattle.std.specs.Prelude.{◌≡◌, ◌≤◌, ◌++◌, length, codes};
ghost use Rattle.planner.specs.Text as texts;
ghost use Rattle.row_join.specs.Joins.{values_at};
ghost use Rattle.row_join.specs.Places.{all_rows, rows_of};
ghost use Rattle.terminal.specs.Printed.{lead};
ghost use Rattle.query_run.specs.Answers.{IsPrintable, found_text};
ghost use Rattle.query_run.specs.Printing.{EndsSaying};
ghost use Rattle.query_run.specs.QueryText as model;

use crate::answer::Answer;
use card_link::Desk;
use eeprom::SinkFault;
use planner::Closing;
use query::Query;
use row_join::{Column, Combination, Fetched, value_at};
use terminal::{closing_text, give_value};

/// Prints a text.
pub(crate) fn say<L: Desk>(desk: &mut L, text: &[u8]) -> Result<(), SinkFault>
    ensures { EndsSaying L.is_at L.is_live L.faults L.mark L.chip L.goes_on L.given L.sink_faults text.now result desk.old desk.new }
{
    desk.give(text)
}

// Prints a value.
fn say_value<L: Desk>(desk: &mut L, value: &[u8]) -> Result<(), SinkFault>
    requires { length value.now ≤ 200 }
    ensures { EndsSaying L.is_at L.is_live L.faults L.mark L.chip L.goes_on L.given L.sink_faults (texts.value_text value.now) result desk.old desk.new }
{
    give_value(desk, value)
}

// Between values stand a comma and a space.
fn say_between<L: Desk>(desk: &mut L, place: usize) -> Result<(), SinkFault>
    ensures { EndsSaying L.is_at L.is_live L.faults L.mark L.chip L.goes_on L.given L.sink_faults (lead place) result desk.old desk.new }
{
    if place == 0 {
        return say(desk, b"");
    }
    say(desk, b", ")
}

// Prints the selected values of a combination.
fn print_values<L: Desk>(
    desk: &mut L,
    tables: &[Fetched],
    selected: &[Column],
    combination: &Combination,
) -> Result<(), SinkFault>
    ensures { EndsSaying L.is_at L.is_live L.faults L.mark L.chip L.goes_on L.given L.sink_faults (texts.values_text (values_at selected.now (rows_of tables.now combination.now.places))) result desk.old desk.new }
{
    for place in 0..selected.len() {
        say_between(desk, place)?;
        say_value(desk, value_at(tables, combination, selected[place]))?;
    }
    Ok(())
}

// Prints a combination on a line of its own.
fn print_row<L: Desk>(
    desk: &mut L,
    tables: &[Fetched],
    selected: &[Column],
    combination: &Combination,
) -> Result<(), SinkFault>
    ensures { EndsSaying L.is_at L.is_live L.faults L.mark L.chip L.goes_on L.given L.sink_faults (texts.row_text (values_at selected.now (rows_of tables.now combination.now.places))) result desk.old desk.new }
{
    print_values(desk, tables, selected, combination)?;
    say(desk, b"\n")?;
    Ok(())
}

// Prints combinations, each on a line.
fn print_rows<L: Desk>(
    desk: &mut L,
    tables: &[Fetched],
    query: &Query,
    combinations: &[Combination],
) -> Result<(), SinkFault>
    ensures { EndsSaying L.is_at L.is_live L.faults L.mark L.chip L.goes_on L.given L.sink_faults (model.row_texts query.now (all_rows tables.now combinations.now)) result desk.old desk.new }
{
    let selected = query.selected.as_slice();
    for combination in combinations {
        print_row(desk, tables, selected, combination)?;
    }
    Ok(())
}

/// Prints what a query gives.
pub(crate) fn print_answer<L: Desk>(
    desk: &mut L,
    query: &Query,
    answer: &Answer,
) -> Result<(), SinkFault>
    requires { IsPrintable answer.now }
    ensures { EndsSaying L.is_at L.is_live L.faults L.mark L.chip L.goes_on L.given L.sink_faults (found_text query.now answer.now) result desk.old desk.new }
{
    match answer {
        Answer::Refused { word } => say(desk, &closing_text(Closing::Refused { word: *word })),
        Answer::TooMany => say(desk, b"too many rows\n"),
        Answer::Rows {
            tables,
            combinations,
        } => {
            print_rows(desk, tables, query, combinations)?;
            let number = combinations.len() as u32;
            say(desk, &closing_text(Closing::Rows { number }))?;
            Ok(())
        }
    }
}

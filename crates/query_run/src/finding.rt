// What a query gives: the rows of its objects are fetched, joined and put in order.
ghost use Rattle.std.specs.Prelude.{◌≡◌, ◌≤◌, IfOk, MatchResult, length};
ghost use Rattle.scql_model.specs.Machine.{Machine};
ghost use Rattle.row_join.specs.Links.{AreWithin};
ghost use Rattle.query_run.specs.Answering.{FindsSo, IsAnswerable, JoinsSo, ShowsCounts};
ghost use Rattle.query_run.specs.Answers.{IsPrintable, refused_by};
ghost use Rattle.query_run.specs.Fetching.{CanAsk, Fetches, FetchesOver, IsStopped, ReadsAs};

use crate::Unfetched;
use crate::answer::Answer;
use crate::fetching::fetch_all;
use card_link::CardLink;
use eeprom::Heap;
use person::Person;
use query::Query;
use row_join::{Fetched, Joined, join_rows, sort_combinations};
use std::alloc::AllocError;

// What a query gives of the rows of its objects.
fn join_tables(alloc: Heap, tables: Vec<Fetched, Heap>, query: &Query) -> Result<Answer, AllocError>
    requires few { length tables.items ≤ 3 }
    requires within { AreWithin (length tables.items) query.now.equalities }
    ensures { IfOk result (JoinsSo query.now tables.items) }
{
    match join_rows(alloc, &tables, query.equalities.as_slice())? {
        Joined::TooMany => Ok(Answer::TooMany),
        Joined::Kept { mut combinations } => {
            sort_combinations(&tables, query.order.as_slice(), &mut combinations)?;
            Ok(Answer::Rows {
                tables,
                combinations,
            })
        }
    }
}

// What a query gives whose rows aren't there.
fn refusal_of(end: Unfetched) -> Result<Answer, Unfetched>
    ensures { result ≡ refused_by end }
{
    match end {
        Unfetched::Refused { word } => Ok(Answer::Refused { word }),
        Unfetched::Mute => Err(Unfetched::Mute),
        Unfetched::NoMemory => Err(Unfetched::NoMemory),
    }
}

/// What a query gives. All rows are fetched and joined; a person is shown how many rows there are so far.
pub(crate) fn find_answer<L: CardLink, P: Person>(
    alloc: Heap,
    link: &mut L,
    query: &Query,
    person: &mut P,
) -> Result<Answer, Unfetched>
    requires { CanAsk L.is_live (IsAnswerable query.now) link.old }
    ensures finds { Fetches ((m : Machine) → ReadsAs L.is_at m link.old → FetchesOver L.mark L.chip m (IfOk result (λ answer. FindsSo L.is_at m query.now answer link.new)) link.old link.new)
        (ShowsCounts P.lost P.shown person.old person.new) L.is_live L.faults L.mark L.keeps L.goes_on result link.old link.new }
    ensures ends { MatchResult result IsPrintable IsStopped }
{
    match fetch_all(alloc, link, &query.objects, person) {
        Err(end) => refusal_of(end),
        Ok(tables) => match join_tables(alloc, tables, query) {
            Ok(answer) => Ok(answer),
            Err(_) => Err(Unfetched::NoMemory),
        },
    }
}

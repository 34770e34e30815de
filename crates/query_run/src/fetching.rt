// The rows of a query's objects, fetched from a card.
ghost use Rattle.std.specs.Prelude.{◌≡◌, ◌∷◌, ◌++◌, List, [], OnOk, OnErr, IfOk, length};
ghost use Rattle.std.specs.List.{AllByRecursion};
ghost use Rattle.scql_model.specs.Machine.{Machine};
ghost use Rattle.scql_model.specs.Matching.{Values};
ghost use Rattle.scql_model.specs.Shown.{shown_on};
ghost use Rattle.script.specs.declared.statement.Statement.TheVariants.{Select};
ghost use Rattle.script.specs.Commands.{IsSendable};
ghost use Rattle.planner.specs.declared.closing.Closing.{Closing as ModelClosing};
ghost use Rattle.planner.specs.Planned.{IfSent};
ghost use Rattle.card_asking.specs.Giving.{GivesRows};
ghost use Rattle.query_run.specs.Fetching as model;
ghost use Rattle.query_run.specs.Fetching.{CanAsk, CanBeAsked, Fetches, FetchesOver, FetchesSo, IsFetched, TakesOver, UnlessStopped};
ghost use Rattle.query_run.specs.Progress.{ShowsAllFetched, ShowsFetched};
ghost use Rattle.query_run.specs.QueryText.{rows_shown, tables_shown};

use crate::Unfetched;
use crate::progress::FETCHED;
use apdu::Reply;
use arrayvec::ArrayVec;
use card_asking::follow;
use card_link::CardLink;
use eeprom::Heap;
use person::Person;
use planner::{Closing, Plan, Step};
use query::AskedObject;
use row_join::Fetched;
use scql_base::{Conditions, Copied, Row, StatusWord};
use script::Statement;
use std::alloc::AllocError;

// The SELECT of an object's rows.
fn selection(asked: &AskedObject) -> Statement
    ensures { result ≡ Select asked.now.object asked.now.columns [] }
{
    Statement::Select {
        object: asked.object.copy(),
        columns: asked.columns.copy(),
        conditions: Conditions::new(),
    }
}

// How a plan ended.
fn fetched(closing: Closing) -> Result<(), Unfetched>
    ensures { result ≡ model.fetched_by closing }
{
    match closing {
        Closing::Refused { word } => Err(Unfetched::Refused { word }),
        Closing::Nothing | Closing::Fine | Closing::Rows { .. } | Closing::Cut { .. } => Ok(()),
    }
}

// Adds a step's row, if the step has one.
fn add_row(plan: &Plan, step: &Step, rows: &mut Vec<Row, Heap>) -> Result<(), AllocError>
    ensures added { OnOk result (rows.new.items ≡ rows.old.items ++ model.row_at step.now plan.now.row) }
    ensures same { OnErr result (rows.new.items ≡ rows.old.items) }
{
    let Step::Row { .. } = step else {
        return Ok(());
    };
    if let Some(row) = plan.row() {
        rows.push(row.copy())?;
    }
    Ok(())
}

// Adds a step's row, and follows the step.
fn take_row<L: CardLink>(
    link: &mut L,
    plan: &mut Plan,
    step: &mut Step,
    reply: &mut Reply,
    rows: &mut Vec<Row, Heap>,
) -> Result<(), Unfetched>
    requires { CanAsk L.is_live (IfSent step.old IsSendable) link.old }
    ensures { TakesOver rows.old.items plan.old step.old rows.new.items plan.new step.new L.is_at L.is_live L.faults L.mark L.chip L.keeps L.goes_on result link.old link.new }
{
    match add_row(plan, step, rows) {
        Ok(()) => {}
        Err(_) => return Err(Unfetched::NoMemory),
    }
    match follow(link, plan, step, reply) {
        Ok(()) => Ok(()),
        Err(_) => Err(Unfetched::Mute),
    }
}

// Fetches all rows that a plan gives. A person is shown how many there are so far.
fn fetch_rows<L: CardLink, P: Person>(
    link: &mut L,
    plan: &mut Plan,
    step: &mut Step,
    rows: &mut Vec<Row, Heap>,
    person: &mut P,
) -> Result<(), Unfetched>
    requires can_ask { CanAsk L.is_live (IfSent step.old IsSendable) link.old }
    requires none { rows.old.items ≡ [] }
    ensures { Fetches ((m last : Machine) (closing : ModelClosing) (all : List Values) → GivesRows L.is_at m closing last all plan.old step.old link.old
        → FetchesOver L.mark L.chip m (UnlessStopped result (IsFetched L.is_at closing last all rows.new.items result link.new)) link.old link.new)
        (ShowsFetched P.lost P.shown (λ _. rows.new.items) result person.old person.new) L.is_live L.faults L.mark L.keeps L.goes_on result link.old link.new }
{
    let mut reply = Reply {
        body: ArrayVec::new(),
        word: StatusWord::DONE,
    };
    loop {
        let count = rows.len() as u64;
        if let Step::Done { closing } = &*step {
            FETCHED.end(count, person);
            return fetched(*closing);
        }
        if let Err(end) = take_row(link, plan, step, &mut reply, rows) {
            FETCHED.end(count, person);
            return Err(end);
        }
        FETCHED.show(count, rows.len() as u64, person);
    }
}

/// Fetches the rows of an object that are shown to channel 0. A person is shown how many there are so far.
pub(crate) fn fetch_object<L: CardLink, P: Person>(
    alloc: Heap,
    link: &mut L,
    asked: &AskedObject,
    person: &mut P,
) -> Result<Fetched, Unfetched>
    requires { CanAsk L.is_live (CanBeAsked asked.now) link.old }
    ensures { Fetches ((m : Machine) → L.is_at link.old m → FetchesOver L.mark L.chip m (FetchesSo L.is_at m (λ fetched. fetched) (rows_shown (shown_on m 0) asked.now) result link.new) link.old link.new)
        (ShowsFetched P.lost P.shown (λ fetched. fetched) result person.old person.new) L.is_live L.faults L.mark L.keeps L.goes_on result link.old link.new }
{
    let mut plan = Plan::start(selection(asked), 0, false);
    let mut step = Step::ResetCard;
    plan.next_into(None, &mut step);
    let mut rows = Vec::new(alloc);
    match fetch_rows(link, &mut plan, &mut step, &mut rows, person) {
        Ok(()) => Ok(Fetched { rows }),
        Err(end) => Err(end),
    }
}

// Adds what was fetched of an object.
fn add_table(fetched: Fetched, tables: &mut Vec<Fetched, Heap>) -> Result<(), AllocError>
    ensures { OnOk result (tables.new.items ≡ tables.old.items ++ fetched ∷ []) }
{
    tables.push(fetched)?;
    Ok(())
}

/// Fetches the rows of each object in turn. A person is shown how many there are so far.
pub(crate) fn fetch_all<L: CardLink, P: Person>(
    alloc: Heap,
    link: &mut L,
    objects: &[AskedObject],
    person: &mut P,
) -> Result<Vec<Fetched, Heap>, Unfetched>
    requires { CanAsk L.is_live (AllByRecursion CanBeAsked objects.now) link.old }
    ensures fetches { Fetches ((m : Machine) → L.is_at link.old m → FetchesOver L.mark L.chip m (FetchesSo L.is_at m (λ tables. tables.items) (tables_shown (shown_on m 0) objects.now) result link.new) link.old link.new)
        (ShowsAllFetched P.lost P.shown (λ tables. tables.items) result person.old person.new) L.is_live L.faults L.mark L.keeps L.goes_on result link.old link.new }
    ensures count { IfOk result (λ tables. length tables.items ≡ length objects.now) }
{
    let mut tables = Vec::new(alloc);
    for asked in objects {
        let fetched = fetch_object(alloc, link, asked, person)?;
        add_table(fetched, &mut tables)?;
    }
    Ok(tables)
}

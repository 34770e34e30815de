// A copy: from a SELECT on the source into a transaction on the destination, a row at a time.
ghost use Rattle.std.specs.Prelude.{◌≡◌, List, ◌∷◌, length, IsTrue, Ok};
ghost use Rattle.scql_model.specs.Database.{Database};
ghost use Rattle.scql_model.specs.Machine.{Machine};
ghost use Rattle.scql_model.specs.Matching.{Values};
ghost use Rattle.card_link.specs.Link.{IsOneOf};
ghost use Rattle.table_copy.specs.Copy as model;
ghost use Rattle.table_copy.specs.Copying.{UndoneSo};
ghost use Rattle.table_copy.specs.Filling.{CopiesAt, FillsSo, GivesAll, HasRow, IsCommitted, IsFetching, IsFilled, IsFilling, PutsSo, TurnsSo, commits_by, counted_by, has_row as model_has_row};
ghost use Rattle.table_copy.specs.Leaving.{CanGoOn, ComesTo, CopiesOver, CopyLeaves, DestLeaves, FillsOver, ReadsOver};
ghost use Rattle.table_copy.specs.Pieces.{CopyEnds, RowsOver, TurnsOver};

use crate::CopyEnd;
use crate::dest::{begin, commit, insert, roll_back};
use crate::fetching::Fetching;
use crate::progress::COPIED;
use crate::source::{advance, goes_on, open, selection};
use apdu::Reply;
use arrayvec::ArrayVec;
use card_link::CardLink;
use person::Person;
use planner::{Plan, Step};
use scql_base::{Name, StatusWord};

// Puts a step's row into the table, if the step has one.
fn put_row<D: CardLink>(
    dest: &mut D,
    table: &Name,
    plan: &Plan,
    step: &Step,
    reply: &mut Reply,
) -> Result<(), CopyEnd>
    requires live { IsTrue (D.is_live dest.old) }
    ensures puts { (d : Machine) (db : Database) (rows : List Values) → CopiesAt D.is_at d db dest.old → HasRow step.now rows plan.now.row
        → PutsSo D.is_at d table.now step.now rows db result dest.new }
    ensures fills { (d : Machine) → IsFilling D.is_at d dest.old → FillsOver D.is_at D.mark D.chip d result dest.old dest.new }
    ensures leaves { DestLeaves D.is_live D.faults D.mark D.keeps D.goes_on result dest.old dest.new }
{
    match step {
        Step::Row { .. } => insert(dest, table, plan.row_octets(), reply),
        _ => Ok(()),
    }
}

// Puts in a step's row, and follows the step.
fn turn<S: CardLink, D: CardLink>(
    source: &mut S,
    dest: &mut D,
    table: &Name,
    fetching: &mut Fetching,
) -> Result<(), CopyEnd>
    requires { CanGoOn S.is_live D.is_live fetching.old.step source.old dest.old }
    ensures { TurnsOver S.is_at S.is_live S.faults S.mark S.chip S.keeps S.goes_on D.is_at D.is_live D.faults D.mark D.chip D.keeps D.goes_on table.now fetching.old.plan fetching.old.step result fetching.new.plan fetching.new.step source.old source.new dest.old dest.new }
{
    match put_row(
        dest,
        table,
        &fetching.plan,
        &fetching.step,
        &mut fetching.reply,
    ) {
        Ok(()) => advance(source, fetching),
        Err(end) => Err(end),
    }
}

// Puts in all rows: how many there were.
fn insert_rows<S: CardLink, D: CardLink, P: Person>(
    source: &mut S,
    dest: &mut D,
    table: &Name,
    fetching: &mut Fetching,
    person: &mut P,
) -> Result<u32, CopyEnd>
    requires { CanGoOn S.is_live D.is_live fetching.old.step source.old dest.old }
    ensures { RowsOver (λ d count total. TurnsSo total result (λ number. IsFilled D.is_at d count total number dest.new)) (λ d. FillsOver D.is_at D.mark D.chip d result dest.old dest.new)
        S.is_at S.is_live S.faults S.mark S.chip S.keeps S.goes_on D.is_at D.is_live D.faults D.mark D.keeps D.goes_on P.lost P.shown
        table.now fetching.old.plan fetching.old.step result source.old source.new dest.old dest.new person.old person.new }
{
    let mut rows = 0;
    loop {
        if let Step::Done { .. } = &fetching.step {
            COPIED.end(u64::from(rows), person);
            return counted(rows, goes_on(&fetching.step));
        }
        let with_row = rows + u32::from(has_row(&fetching.step));
        if let Err(end) = turn(source, dest, table, fetching) {
            COPIED.end(u64::from(rows), person);
            return Err(end);
        }
        COPIED.show(u64::from(rows), u64::from(with_row), person);
        rows = with_row;
    }
}

// Puts in all rows and commits them: how many there were.
fn fill<S: CardLink, D: CardLink, P: Person>(
    source: &mut S,
    dest: &mut D,
    table: &Name,
    fetching: &mut Fetching,
    person: &mut P,
) -> Result<u32, CopyEnd>
    requires { CanGoOn S.is_live D.is_live fetching.old.step source.old dest.old }
    ensures { RowsOver (λ d count total. ComesTo (IsOneOf (D.mark dest.old) (d.committed ∷ commits_by total)) D.chip (TurnsSo total result (λ number. IsCommitted D.is_at d count total number dest.new)) dest.old dest.new) (λ d. FillsSo D.is_at d result dest.new)
        S.is_at S.is_live S.faults S.mark S.chip S.keeps S.goes_on D.is_at D.is_live D.faults D.mark D.keeps D.goes_on P.lost P.shown
        table.now fetching.old.plan fetching.old.step result source.old source.new dest.old dest.new person.old person.new }
{
    match insert_rows(source, dest, table, fetching, person) {
        Ok(rows) => counted(rows, commit(dest, &mut fetching.reply)),
        Err(end) => Err(end),
    }
}

// So many rows, where it was done.
fn counted(count: u32, done: Result<(), CopyEnd>) -> Result<u32, CopyEnd>
    ensures { result ≡ counted_by count done }
{
    done?;
    Ok(count)
}

// Whether a step has a row.
fn has_row(step: &Step) -> bool
    ensures { result ≡ model_has_row step.now }
{
    matches!(step, Step::Row { .. })
}

// A copy whose source is at its first row, or has none.
fn copy_opened<S: CardLink, D: CardLink, P: Person>(
    source: &mut S,
    dest: &mut D,
    table: &Name,
    fetching: &mut Fetching,
    person: &mut P,
) -> CopyEnd
    requires { CanGoOn S.is_live D.is_live fetching.old.step source.old dest.old }
    ensures copied { (s d : Machine) (rows : List Values) → GivesAll S.is_at s (length rows) rows fetching.old.plan fetching.old.step source.old → D.is_at dest.old d
        → CopiesOver D.is_at D.mark D.chip d (model.put_into d table.now (Ok rows)) result dest.old dest.new }
    ensures undone { (d : Machine) → D.is_at dest.old d → UndoneSo D.is_at d result dest.new }
    ensures read { (s : Machine) → IsFetching S.is_at s fetching.old.plan fetching.old.step source.old → ReadsOver S.is_at S.is_live S.mark S.chip s source.old source.new }
    ensures leaves { CopyLeaves S.is_live S.faults S.mark S.keeps S.goes_on D.is_live D.faults D.mark D.keeps D.goes_on P.lost P.shown result source.old source.new dest.old dest.new person.old person.new }
{
    if let Err(end) = begin(dest, &mut fetching.reply) {
        return end;
    }
    match fill(source, dest, table, fetching, person) {
        Ok(rows) => CopyEnd::Copied { rows },
        Err(end) => roll_back(dest, end, &mut fetching.reply),
    }
}

/// Copies the rows that one card shows of an object into a table of another card, all of them or none, on channel 0 of both. Meanwhile a person is shown how far it has come.
pub fn copy<S: CardLink, D: CardLink, P: Person>(
    source: &mut S,
    dest: &mut D,
    object: &Name,
    table: &Name,
    person: &mut P,
) -> CopyEnd
    requires live { IsTrue (S.is_live source.old) × IsTrue (D.is_live dest.old) }
    ensures { CopyEnds S.is_at S.is_live S.faults S.mark S.chip S.keeps S.goes_on D.is_at D.is_live D.faults D.mark D.chip D.keeps D.goes_on P.lost P.shown (λ s d. model.copy s d object.now table.now) result
        source.old source.new dest.old dest.new person.old person.new }
{
    let plan = Plan::start(selection(object), 0, false);
    let mut fetching = Fetching {
        plan,
        step: Step::ResetCard,
        reply: Reply {
            body: ArrayVec::new(),
            word: StatusWord::DONE,
        },
    };
    match open(source, &mut fetching) {
        Ok(()) => copy_opened(source, dest, table, &mut fetching, person),
        Err(end) => end,
    }
}

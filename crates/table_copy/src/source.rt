// The source of a copy: a SELECT of all columns, followed step by step.
ghost use Rattle.std.specs.Prelude.{◌≡◌, ℕ, List, [], Ok, Err, IsTrue, OnOk, false};
ghost use Rattle.scql_model.specs.Machine.{Machine};
ghost use Rattle.script.specs.declared.statement.Statement.TheVariants.{Select};
ghost use Rattle.script.specs.Commands.{CanBeSent, IsSendable};
ghost use Rattle.card_link.specs.Link.{Holds};
ghost use Rattle.planner.specs.Planned.{IfSent, started};
ghost use Rattle.table_copy.specs.Copy.{source_rows};
ghost use Rattle.table_copy.specs.Filling.{OpensSo, fetched_by, goes_on_by};
ghost use Rattle.table_copy.specs.Leaving.{ComesTo, SourceLeaves};
ghost use Rattle.table_copy.specs.Pieces.{AdvancesOver, MayAdvance};

use crate::CopyEnd;
use crate::fetching::Fetching;
use card_asking::follow;
use card_link::CardLink;
use planner::{Closing, Step};
use scql_base::{Conditions, Copied, Name, NameList, StatusWord};
use script::Statement;

/// The SELECT of all columns and all rows of an object.
pub fn selection(object: &Name) -> Statement
    ensures select { result ≡ Select object.now [] [] }
    ensures sendable { CanBeSent 0 result }
{
    let _ = object.octets();
    Statement::Select {
        object: object.copy(),
        columns: NameList::new(),
        conditions: Conditions::new(),
    }
}

// How many rows a plan gave, or why it ended before all of them.
fn fetched(closing: Closing) -> Result<u32, CopyEnd>
    ensures { result ≡ fetched_by closing }
{
    match closing {
        Closing::Rows { number } => Ok(number),
        Closing::Refused { word } => Err(CopyEnd::SourceRefused { word }),
        Closing::Nothing | Closing::Fine | Closing::Cut { .. } => Err(CopyEnd::SourceRefused {
            word: StatusWord::WRONG_DATA,
        }),
    }
}

/// Whether a plan goes on behind this step, or has all rows.
pub fn goes_on(step: &Step) -> Result<(), CopyEnd>
    ensures { result ≡ goes_on_by step.now }
{
    if let Step::Done { closing } = step {
        fetched(*closing)?;
    }
    Ok(())
}

/// Follows a step of the source's plan. Where it was refused the copy ends.
pub fn advance<L: CardLink>(source: &mut L, fetching: &mut Fetching) -> Result<(), CopyEnd>
    requires { MayAdvance L.is_live fetching.old.step source.old }
    ensures { AdvancesOver L.is_at L.is_live L.faults L.mark L.chip L.keeps L.goes_on fetching.old.plan fetching.old.step fetching.old.reply result fetching.new.plan fetching.new.step fetching.new.reply source.old source.new }
{
    match follow(
        source,
        &mut fetching.plan,
        &mut fetching.step,
        &mut fetching.reply,
    ) {
        Ok(()) => goes_on(&fetching.step),
        Err(_) => Err(CopyEnd::SourceMute),
    }
}

/// DECLARE and OPEN, of a plan that nothing was asked for yet.
pub fn open<L: CardLink>(source: &mut L, fetching: &mut Fetching) -> Result<(), CopyEnd>
    requires live { IsTrue (L.is_live source.old) }
    ensures opens { (s : Machine) (object : List ℕ) → fetching.old.plan ≡ started (Select object [] []) 0 false → CanBeSent 0 (Select object [] []) → L.is_at source.old s
        → ComesTo (Holds (L.mark source.old) s.committed) L.chip (OpensSo L.is_at s (source_rows s object) fetching.new.plan fetching.new.step result source.new) source.old source.new }
    ensures sendable { OnOk result (IfSent fetching.new.step IsSendable) }
    ensures leaves { SourceLeaves L.is_live L.faults L.mark L.keeps L.goes_on result source.old source.new }
{
    fetching.plan.next_into(None, &mut fetching.step);
    advance(source, fetching)?;
    advance(source, fetching)
}

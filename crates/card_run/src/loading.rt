// The run of a load: a script that fills a table, changes it and reads it, and one line of what came of it.
ghost use Rattle.std.specs.Prelude.{◌≡◌, ◌+◌, ◌<◌, ◌≤◌, ◌∷◌, [], nat_lt, length, cond, OnOk, OnErr, IfOk, IsTrue, Some};
ghost use Rattle.scql_model.specs.Database.{Database};
ghost use Rattle.scql_model.specs.Lines.{state_after};
ghost use Rattle.scql_model.specs.Machine.{start};
ghost use Rattle.script.specs.Line.{statement_of};
ghost use Rattle.card.specs.Behind.{KeepsBehind};
ghost use Rattle.card.specs.Card.{IsReady, IsAt};
ghost use Rattle.planner.specs.StatementLines.{TerminalState, statement_lines};
ghost use Rattle.terminal.specs.Holding.{terminal_at};
ghost use Rattle.terminal.specs.Load as model;
ghost use Rattle.terminal.specs.Load.{filling_lines, insert_lines, load_counts, load_script};
ghost use Rattle.terminal.specs.Quiet.{closing_in};
ghost use Rattle.card_run.specs.Counted.{counts_of};
ghost use Rattle.line_run.specs.Causes.{Faults};
ghost use Rattle.card_run.specs.Ends.{EndsOpened};
ghost use Rattle.card_run.specs.Loading.{EndsLines, IsIn, LoadsTo, MayLoad};
ghost use Rattle.card_run.specs.Progress.{Reached, ShowsLoad};
ghost use Rattle.card_run.specs.Watching.{IsWhole, PassesLoad, PassesRows, PassesSome};

use crate::load_lines::{
    CHANGE, CREATE, DELETE, LoadCounts, PRESENT, SELECT, insert_line, next_number, text_of,
};
use crate::output::give;
use crate::progress::Progress;
use crate::words::Form;
use card::{Card, LiveCard};
use eeprom::{Bench, EepromFault};
use person::Person;
use planner::Closing;
use program::Status;
use taken_line::TakenLine;
use terminal::{QuietEnd, Terminal};

/// A terminal with its card, and how many statements were refused so far.
#[derive(Drop)]
struct Loader<'a, B: Bench> {
    terminal: Terminal,
    card: LiveCard<'a, B>,
    refused: u32,
}

/// Runs the script of so many rows from a number, and says what came of it. Meanwhile a person is shown how far it has come.
#[inline(never)]
pub(crate) fn run_load<B: Bench, P: Person>(
    card: Card,
    bench: &mut B,
    person: &mut P,
    rows: u16,
    seed: u16,
) -> Status
    requires { IsReady card (B.chip bench.old) }
    ensures loads { (db : Database) → IsAt card (B.chip bench.old) (start db)
        → LoadsTo rows seed result (terminal_at (start db) 0) (B.faults bench.old) (B.faults bench.new) (B.chip bench.old) (B.chip bench.new) }
    ensures ended { EndsOpened (Form.Load rows seed) result (record { eeprom = B.faults bench.old; outlet = B.sink_faults bench.old }) (record { eeprom = B.faults bench.new; outlet = B.sink_faults bench.new }) }
    // Nothing is written behind the card's image.
    ensures behind { KeepsBehind (λ was. card.store.chains.cells) (B.chip bench.old) (B.chip bench.new) }
    ensures shows { ShowsLoad P.lost P.shown rows seed result (λ db. IsAt card (B.chip bench.old) (start db)) person.old person.new }
{
    let mut loader = Loader {
        terminal: Terminal::new(),
        card: LiveCard::new(card, bench),
        refused: 0,
    };
    let mut progress = Progress::new();
    let counted = loader.run_script(rows, seed, &mut progress, person);
    progress.end(person);
    let bench = loader.card.into_bench();
    let Ok(counts) = counted else {
        return Status::Eeprom;
    };
    match give(bench, &text_of(&counts)) {
        Ok(()) => status_of(counts.refused),
        Err(_) => Status::WriteFault,
    }
}

// How a load ends in which so many statements were refused.
fn status_of(refused: u32) -> Status
    ensures { result ≡ cond (nat_lt 0 refused) Status.Refused Status.Done }
{
    if 0 < refused {
        Status::Refused
    } else {
        Status::Done
    }
}

impl<'a, B: Bench> Loader<'a, B> {
    // Runs the script.
    fn run_script<P: Person>(
        &mut self,
        rows: u16,
        seed: u16,
        progress: &mut Progress,
        person: &mut P,
    ) -> Result<LoadCounts, EepromFault>
        requires { MayLoad 0 self.old.card.card.live self.old.refused progress.old }
        ensures ended { EndsLines B.chip B.faults (load_script rows seed)
            (record { terminal = self.old.terminal; card = self.old.card; refused = self.old.refused })
            (record { terminal = self.new.terminal; card = self.new.card; refused = self.new.refused }) result }
        ensures counted { (state : TerminalState) → IsIn B.chip state (record { terminal = self.old.terminal; card = self.old.card; refused = self.old.refused })
            → IfOk result (λ counts. counts_of counts ≡ load_counts state rows seed) }
        ensures shows { OnOk result ((reached : Reached) × PassesLoad P.lost P.shown rows seed (λ state. IsIn B.chip state (record { terminal = self.old.terminal; card = self.old.card; refused = self.old.refused })) progress.new person.old person.new reached × IsWhole rows reached) }
        ensures shows_until { OnErr result ((reached : Reached) × PassesLoad P.lost P.shown rows seed (λ state. IsIn B.chip state (record { terminal = self.old.terminal; card = self.old.card; refused = self.old.refused })) progress.new person.old person.new reached) }
    {
        self.fill(rows, seed, progress, person)?;
        let changed = self.carry_out(CHANGE)?;
        progress.set_changed(changed, person);
        let deleted = self.carry_out(DELETE)?;
        progress.set_deleted(deleted, person);
        let rows = self.carry_out(SELECT)?;
        Ok(LoadCounts {
            rows,
            changed,
            deleted,
            refused: self.refused,
        })
    }

    // Makes the table and fills it.
    fn fill<P: Person>(
        &mut self,
        rows: u16,
        seed: u16,
        progress: &mut Progress,
        person: &mut P,
    ) -> Result<(), EepromFault>
        requires { MayLoad 0 self.old.card.card.live self.old.refused progress.old }
        ensures ended { EndsLines B.chip B.faults (filling_lines rows seed)
            (record { terminal = self.old.terminal; card = self.old.card; refused = self.old.refused })
            (record { terminal = self.new.terminal; card = self.new.card; refused = self.new.refused }) result }
        ensures few { OnOk result (self.new.refused ≤ 65537) }
        ensures shows { OnOk result (PassesRows P.lost P.shown seed rows (λ state. IsIn B.chip state (record { terminal = self.old.terminal; card = self.old.card; refused = self.old.refused })) progress.new person.old person.new) }
        ensures shows_until { OnErr result (PassesSome P.lost P.shown seed rows (λ state. IsIn B.chip state (record { terminal = self.old.terminal; card = self.old.card; refused = self.old.refused })) progress.new person.old person.new) }
    {
        self.carry_out(PRESENT)?;
        self.carry_out(CREATE)?;
        self.insert_rows(rows, seed, progress, person)
    }

    // Inserts so many rows.
    fn insert_rows<P: Person>(
        &mut self,
        rows: u16,
        seed: u16,
        progress: &mut Progress,
        person: &mut P,
    ) -> Result<(), EepromFault>
        requires { MayLoad 2 self.old.card.card.live self.old.refused progress.old }
        ensures ended { EndsLines B.chip B.faults (insert_lines rows 1 seed)
            (record { terminal = self.old.terminal; card = self.old.card; refused = self.old.refused })
            (record { terminal = self.new.terminal; card = self.new.card; refused = self.new.refused }) result }
        ensures few { OnOk result (self.new.refused ≤ 2 + rows) }
        ensures shows { OnOk result (PassesRows P.lost P.shown seed rows (λ state. IsIn B.chip (state_after statement_lines state (filling_lines 0 seed)) (record { terminal = self.old.terminal; card = self.old.card; refused = self.old.refused })) progress.new person.old person.new) }
        ensures shows_until { OnErr result (PassesSome P.lost P.shown seed rows (λ state. IsIn B.chip (state_after statement_lines state (filling_lines 0 seed)) (record { terminal = self.old.terminal; card = self.old.card; refused = self.old.refused })) progress.new person.old person.new) }
    {
        let mut value = seed as u32;
        for row in 0..rows {
            value = next_number(value);
            let refused = self.refused;
            let line = insert_line(row + 1, value);
            self.carry_out(TakenLine { octets: &line })?;
            progress.pass_row(refused < self.refused, person);
        }
        Ok(())
    }

    // Carries out a line, and tells the number of its closing line, or 0 where it has none.
    fn carry_out(&mut self, line: TakenLine<'_>) -> Result<u32, EepromFault>
        requires live { IsTrue self.old.card.card.live }
        requires few { self.old.refused ≤ 70000 }
        ensures ended { EndsLines B.chip B.faults (line.entry.octets.now ∷ [])
            (record { terminal = self.old.terminal; card = self.old.card; refused = self.old.refused })
            (record { terminal = self.new.terminal; card = self.new.card; refused = self.new.refused }) result }
        ensures number { (state : TerminalState) → IsIn B.chip state (record { terminal = self.old.terminal; card = self.old.card; refused = self.old.refused })
            → IfOk result (λ number. number ≡ model.number_of (closing_in state (statement_of line.entry.octets.now))) }
    {
        match self.terminal.quiet(&mut self.card, line) {
            QuietEnd::Closed { closing } => {
                self.refused += refusals_in(closing);
                Ok(number_in(closing))
            }
            QuietEnd::Faulty => Ok(0),
            QuietEnd::Mute => Err(EepromFault),
        }
    }
}

// The number of a closing line, or 0 where it has none.
fn number_in(closing: Closing) -> u32
    ensures { result ≡ model.number_of (Some closing) }
{
    match closing {
        Closing::Rows { number } | Closing::Cut { number } => number,
        _ => 0,
    }
}

// One where a statement was refused.
fn refusals_in(closing: Closing) -> u32
    ensures refused { result ≡ cond (model.is_refused (Some closing)) 1 0 }
    ensures one { result ≤ 1 }
{
    match closing {
        Closing::Refused { .. } => 1,
        _ => 0,
    }
}

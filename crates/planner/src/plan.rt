// Which command comes next.
ghost use Rattle.std.specs.Prelude.{◌≡◌, ◌≤◌, [], ◌++◌, OnOk, IfErr, Ok, Err, unwrap_or, nat_le, nat_lt, length, option_copied, true, if◌then◌else◌};
ghost use Rattle.scql_base.specs.Changes.{change_octets};
ghost use Rattle.scql_base.specs.Row.{row_from};
ghost use Rattle.scql_base.specs.declared.row.TheConstants.Row.{LARGEST};
ghost use Rattle.scql_base.specs.declared.operation.Operation.TheVariants.{DeclareCursor, FetchNext, Update};
ghost use Rattle.script.specs.Commands as commands;
ghost use Rattle.script.specs.Commands.{CanAlwaysBeSent, CanBeSent, IsSendable};
ghost use Rattle.script.specs.Line.{statement_of};
ghost use Rattle.scql_base.specs.declared.operation.TheConstants.Command.{LAST_CHANNEL, LONGEST_IN_PARTS};
ghost use Rattle.planner.specs.declared.stage.Stage.TheVariants as Stage;
ghost use Rattle.planner.specs.declared.step.Step.TheVariants as Step;
ghost use Rattle.script.specs.declared.statement.Statement.TheVariants.{Blank, Reset};
ghost use Rattle.planner.specs.Planned as planned;
ghost use Rattle.planner.specs.Planned.{IfSent, Turn};

use crate::row_octets::RowOctets;
use crate::stage::Stage;
use crate::words::{closing_of, has_more, is_end, is_refusal};
use crate::{Closing, Step};
use apdu::Reply;
use scql_base::{
    Changes, Command, Conditions, Copied, Name, NameList, Operation, PackedChanges, Row, StatusWord,
};
use script::{ScriptFault, Statement};
use std::marker::Model;
use std::mem;
use taken_line::TakenLine;

/// What is left of a statement on a channel.
#[derive(Drop)]
pub struct Plan {
    // The statement, as long as it is kept.
    statement: Statement,
    kept: bool,
    channel: u8,
    own: bool,
    stage: Stage,
    rows: u32,
    responses: u8,
    row: RowOctets,
}

impl Model for Plan {
    ghost use Rattle.script.specs.Commands.{CanBeSent};
    ghost use Rattle.std.specs.Prelude.{if◌then◌else◌};
    ghost use Rattle.script.specs.declared.statement.Statement.TheVariants.{Blank};
    ghost use Rattle.planner.specs.Planned.{Planned};

    ghost Value = { Planned };

    ghost view = { λ p. record { statement = if p.kept then p.statement else Blank; channel = p.channel; own = p.own; stage = p.stage; rows = p.rows; responses = p.responses; row = p.row } };

    ghost invariant = { λ p. CanBeSent p.channel (if p.kept then p.statement else Blank) };
}

impl Plan {
    /// After so many rows a plan ends.
    const MOST_ROWS: u32 = 2048;

    /// How often a plan asks for the rest of a row.
    const MOST_RESPONSES: u8 = 3;

    /// A plan for a statement on a channel; `inside` says that the channel has the open transaction.
    pub fn start(statement: Statement, channel: u8, inside: bool) -> Plan
        requires { CanBeSent channel statement }
        ensures { result ≡ planned.started statement channel inside }
    {
        let own = changes_rows(&statement) && !inside;
        Plan {
            statement,
            kept: true,
            channel,
            own,
            stage: Stage::Start,
            rows: 0,
            responses: 0,
            row: RowOctets::new(),
        }
    }

    /// Makes this the plan for the statement of a line, as `start` does of what `Statement::read` gives. Where there is none the plan has
    /// nothing to do.
    pub fn read(
        &mut self,
        line: TakenLine<'_>,
        channel: u8,
        inside: bool,
    ) -> Result<(), ScriptFault>
        requires within { channel ≤ LAST_CHANNEL }
        ensures statement { OnOk result (statement_of line.entry.octets.now ≡ Ok self.new.statement) }
        ensures started { OnOk result (self.new ≡ planned.started self.new.statement channel inside) }
        ensures sendable { OnOk result (CanAlwaysBeSent self.new.statement) }
        ensures fault { IfErr result (λ fault. statement_of line.entry.octets.now ≡ Err fault) }
    {
        let read = Statement::read_into(line, &mut self.statement);
        self.kept = read.is_ok();
        self.own = changes_rows(&self.statement) && !inside;
        self.channel = channel;
        self.stage = Stage::Start;
        self.rows = 0;
        self.responses = 0;
        self.row.put_behind(0, &[]);
        read
    }

    /// The statement, where it is kept: that of one command, or of none, is gone with the first step.
    pub fn statement(&self) -> Option<&Statement>
        ensures statement { unwrap_or (option_copied result) Blank ≡ self.now.statement }
        ensures sendable { CanBeSent self.now.channel self.now.statement }
    {
        if self.kept {
            Some(&self.statement)
        } else {
            None
        }
    }

    /// The next step, by the answer to the command that the plan sent last. No answer counts as 6581.
    pub fn next(&mut self, last: Option<&Reply>) -> Step
        ensures next { planned.next_of (option_copied last.entry) self.old ≡ record { plan = self.new; step = result } }
        ensures sendable { IfSent result IsSendable }
    {
        let mut step = Step::ResetCard;
        self.next_into(last, &mut step);
        step
    }

    /// The next step, as `next` gives it, in the place of another one.
    pub fn next_into(&mut self, last: Option<&Reply>, step: &mut Step)
        ensures next { planned.next_of (option_copied last.entry) self.old ≡ record { plan = self.new; step = step.new } }
        ensures sendable { IfSent step.new IsSendable }
    {
        let _ = &self.statement;
        match last {
            Some(reply) => self.go_on(reply.word, reply.body.as_slice(), step),
            None => self.go_on(StatusWord::MEMORY_FAILURE, &[], step),
        }
    }

    /// After a step with a row: the row's octets, joined where they came in parts.
    pub fn row_octets(&self) -> &[u8]
        ensures { result.now ≡ self.now.row }
    {
        self.row.as_slice()
    }

    /// The row that these octets are, where they are one.
    pub fn row(&self) -> Option<&Row>
        ensures { option_copied result ≡ row_from self.now.row }
    {
        self.row.row()
    }

    fn go_on(&mut self, word: StatusWord, body: &[u8], step: &mut Step)
        ensures { planned.goes_on self.old.stage word body.now self.old ≡ record { plan = self.new; step = step.new } }
    {
        match self.stage {
            Stage::Start => self.begin(step),
            Stage::Alone => self.end(closing_of(word), step),
            Stage::RollingBack { word } => self.end(Closing::Refused { word }, step),
            Stage::Ended { closing } => put_end(closing, step),
            stage if is_refusal(word) => self.refuse(stage, word, step),
            stage => self.accept(stage, word, body, step),
        }
    }

    // Goes on after an answer that is no refusal.
    fn accept(&mut self, stage: Stage, word: StatusWord, body: &[u8], step: &mut Step)
        ensures { planned.accepts stage word body.now self.old ≡ record { plan = self.new; step = step.new } }
    {
        match stage {
            Stage::Beginning => self.declare(step),
            Stage::Declaring => self.ask(Stage::Opening, Operation::OpenCursor, step),
            Stage::Opening | Stage::Moving | Stage::Fetching if is_end(word) => self.finish(step),
            Stage::Opening | Stage::Moving => self.reach(step),
            Stage::Fetching => self.take(word, body, step),
            Stage::Changing => self.ask(Stage::Moving, Operation::Next, step),
            _ => self.end(Closing::Rows { number: self.rows }, step),
        }
    }

    // The first step. A statement of one command, or of none, isn't kept.
    fn begin(&mut self, step: &mut Step)
        ensures { planned.begins self.old.statement self.old ≡ record { plan = self.new; step = step.new } }
    {
        if !self.kept {
            return self.end(Closing::Nothing, step);
        }
        match &mut self.statement {
            Statement::Blank => self.end(Closing::Nothing, step),
            Statement::Single { operation } => {
                let operation = mem::replace(operation, Operation::Next);
                self.kept = false;
                self.ask(Stage::Alone, operation, step)
            }
            Statement::OpenNumber { number } => {
                let number = *number;
                self.ask_on_first(Operation::OpenChannel { number }, step)
            }
            Statement::CloseNumber { number } => {
                let number = *number;
                self.ask_on_first(Operation::CloseChannel { number }, step)
            }
            Statement::UseNumber { .. } => {
                self.kept = false;
                self.end(Closing::Fine, step)
            }
            Statement::Reset => self.reset_card(step),
            _ => self.begin_with(step),
        }
    }

    // Asks for an operation on channel 0, which is always open.
    fn ask_on_first(&mut self, operation: Operation, step: &mut Step)
        ensures { planned.sends Stage.Alone (commands.asking 0 operation) (planned.empty self.old) ≡ record { plan = self.new; step = step.new } }
    {
        self.kept = false;
        self.send(Stage::Alone, asking(0, operation), step);
    }

    fn reset_card(&mut self, step: &mut Step)
        ensures { planned.begins Reset self.old ≡ record { plan = self.new; step = step.new } }
    {
        self.kept = false;
        self.stage = Stage::Ended {
            closing: Closing::Fine,
        };
        *step = Step::ResetCard;
    }

    fn begin_with(&mut self, step: &mut Step)
        ensures { planned.begins_with self.old ≡ record { plan = self.new; step = step.new } }
    {
        if self.own {
            self.ask(Stage::Beginning, Operation::Begin, step)
        } else {
            self.declare(step)
        }
    }

    // Declares a cursor over the rows that are read or changed.
    fn declare(&mut self, step: &mut Step)
        ensures { planned.declares self.old ≡ record { plan = self.new; step = step.new } }
    {
        let operation = match self.statement() {
            Some(
                Statement::Select {
                    object,
                    columns,
                    conditions,
                },
            ) => cursor_over(object, columns, conditions),
            Some(
                Statement::UpdateRows {
                    object,
                    conditions,
                    ..
                }
                | Statement::DeleteRows { object, conditions },
            ) => { cursor_over(object, &NameList::new(), conditions) }
            _ => return self.end(Closing::Nothing, step),
        };
        self.ask(Stage::Declaring, operation, step);
    }

    // A row was reached: it is fetched, or changed.
    fn reach(&mut self, step: &mut Step)
        ensures { planned.reaches self.old.statement self.old ≡ record { plan = self.new; step = step.new } }
    {
        match self.statement() {
            Some(Statement::UpdateRows { .. } | Statement::DeleteRows { .. }) => self.change(step),
            _ => self.want(Stage::Fetching, Operation::Fetch, step),
        }
    }

    // The row that was reached is changed, where it is one of the first ones.
    fn change(&mut self, step: &mut Step)
        requires changes { planned.changes_rows self.old.statement ≡ true }
        ensures { planned.reaches self.old.statement self.old ≡ record { plan = self.new; step = step.new } }
    {
        let channel = self.channel;
        if self.rows < Plan::MOST_ROWS {
            match self.statement() {
                Some(Statement::UpdateRows { changes, .. }) => put_update(channel, changes, step),
                Some(Statement::DeleteRows { .. }) => {
                    put_sent(asking(channel, Operation::Delete), step)
                }
                _ => unreachable!(),
            }
            self.rows += 1;
            self.stage = Stage::Changing;
        } else {
            self.finish(step)
        }
    }

    // Octets of a row came.
    fn take(&mut self, word: StatusWord, body: &[u8], step: &mut Step)
        ensures { planned.takes word body.now self.old ≡ record { plan = self.new; step = step.new } }
    {
        let before = if self.responses == 0 {
            0
        } else {
            self.row.as_slice().len()
        };
        if before + body.len() > Row::LARGEST {
            return self.cut(step);
        }
        self.row.put_behind(before, body);
        if has_more(word) {
            self.ask_for_rest(step)
        } else {
            self.end_row(step)
        }
    }

    fn ask_for_rest(&mut self, step: &mut Step)
        ensures { planned.asks_for_rest self.old ≡ record { plan = self.new; step = step.new } }
    {
        if self.responses < Plan::MOST_RESPONSES {
            self.responses += 1;
            self.want(Stage::Fetching, Operation::GetResponse, step)
        } else {
            self.cut(step)
        }
    }

    // All octets of a row are there: it is given, and the next one fetched.
    fn end_row(&mut self, step: &mut Step)
        ensures { planned.ends_row self.old ≡ record { plan = self.new; step = step.new } }
    {
        if !self.row.is_row() {
            return self.cut(step);
        }
        if self.rows >= Plan::MOST_ROWS {
            return self.finish(step);
        }
        self.stage = Stage::Fetching;
        self.rows += 1;
        self.responses = 0;
        put_row(self.channel, step);
    }

    // All rows were given or changed.
    fn finish(&mut self, step: &mut Step)
        ensures { planned.finishes self.old ≡ record { plan = self.new; step = step.new } }
    {
        if self.own {
            self.ask(Stage::Committing, Operation::Commit, step)
        } else {
            self.end(Closing::Rows { number: self.rows }, step)
        }
    }

    // What came is no row, or didn't end: the plan ends with the rows so far.
    fn cut(&mut self, step: &mut Step)
        ensures { planned.cuts self.old ≡ record { plan = self.new; step = step.new } }
    {
        self.end(Closing::Cut { number: self.rows }, step)
    }

    // A refusal ends the plan, which first rolls back a transaction of its own that was begun.
    fn refuse(&mut self, stage: Stage, word: StatusWord, step: &mut Step)
        ensures { planned.refuses stage word self.old ≡ record { plan = self.new; step = step.new } }
    {
        if self.own && stage != Stage::Beginning {
            self.ask(Stage::RollingBack { word }, Operation::Rollback, step)
        } else {
            self.end(Closing::Refused { word }, step)
        }
    }

    fn ask(&mut self, stage: Stage, operation: Operation, step: &mut Step)
        ensures { planned.asks stage operation self.old ≡ record { plan = self.new; step = step.new } }
    {
        self.send(stage, asking(self.channel, operation), step);
    }

    fn want(&mut self, stage: Stage, operation: Operation, step: &mut Step)
        ensures { planned.wants stage operation self.old ≡ record { plan = self.new; step = step.new } }
    {
        self.send(stage, wanting(self.channel, operation), step);
    }

    fn send(&mut self, stage: Stage, command: Command, step: &mut Step)
        ensures { planned.sends stage command self.old ≡ record { plan = self.new; step = step.new } }
    {
        self.stage = stage;
        put_sent(command, step);
    }

    fn end(&mut self, closing: Closing, step: &mut Step)
        ensures { planned.ends closing self.old ≡ record { plan = self.new; step = step.new } }
    {
        self.stage = Stage::Ended { closing };
        put_end(closing, step);
    }
}

fn changes_rows(statement: &Statement) -> bool
    ensures { result ≡ planned.changes_rows statement.now }
{
    matches!(
        statement,
        Statement::UpdateRows { .. } | Statement::DeleteRows { .. }
    )
}

fn asking(channel: u8, operation: Operation) -> Command
    ensures { result ≡ commands.asking channel operation }
{
    Command {
        channel,
        operation,
        le: None,
    }
}

fn put_sent(command: Command, step: &mut Step)
    ensures { step.new ≡ Step.Send command }
{
    *step = Step::Send { command };
}

// Makes the step that updates a row. The changes are packed there, so that the octets of a command aren't copied for each row.
#[inline(never)]
fn put_update(channel: u8, changes: &Changes, step: &mut Step)
    requires fits { length (change_octets changes.now) ≤ LONGEST_IN_PARTS }
    ensures { step.new ≡ Step.Send (commands.asking channel (Update changes.now)) }
{
    *step = Step::Send {
        command: asking(
            channel,
            Operation::Update {
                changes: PackedChanges::new(),
            },
        ),
    };
    match step {
        Step::Send {
            command: Command {
                operation: Operation::Update { changes: packed },
                ..
            },
        } => pack(changes, packed),
        _ => unreachable!(),
    }
}

// Puts changes that one command can have into a place without any.
fn pack(changes: &Changes, packed: &mut PackedChanges)
    requires fits { length (change_octets changes.now) ≤ LONGEST_IN_PARTS }
    requires empty { packed.old ≡ [] }
    ensures { packed.new ≡ changes.now }
{
    for change in changes.as_slice() {
        let pushed = packed
            .push(&change.pair.0, change.pair.1.as_slice())
            .is_ok();
        prove!(pushed);
    }
}

fn put_end(closing: Closing, step: &mut Step)
    ensures { step.new ≡ Step.Done closing }
{
    *step = Step::Done { closing };
}

// Makes the step that gives a row and fetches the next one. Behind another row it stands there already.
fn put_row(channel: u8, step: &mut Step)
    ensures { step.new ≡ Step.Row (commands.wanting channel FetchNext) }
{
    if !is_row_step(channel, step) {
        put_first_row(channel, step);
    }
}

fn put_first_row(channel: u8, step: &mut Step)
    ensures { step.new ≡ Step.Row (commands.wanting channel FetchNext) }
{
    *step = Step::Row {
        command: wanting(channel, Operation::FetchNext),
    };
}

fn is_row_step(channel: u8, step: &Step) -> bool
    ensures { result ≡ true → step.now ≡ Step.Row (commands.wanting channel FetchNext) }
{
    match step {
        Step::Row {
            command: Command {
                channel: asked,
                operation: Operation::FetchNext,
                le: Some(Command::LARGEST_LE),
            },
        } => *asked == channel,
        _ => false,
    }
}

// A command that wants as many octets as an answer may have.
fn wanting(channel: u8, operation: Operation) -> Command
    ensures { result ≡ commands.wanting channel operation }
{
    Command {
        channel,
        operation,
        le: Some(Command::LARGEST_LE),
    }
}

fn cursor_over(object: &Name, columns: &NameList, conditions: &Conditions) -> Operation
    ensures { result ≡ DeclareCursor object.now columns.now conditions.now }
{
    Operation::DeclareCursor {
        object: object.copy(),
        columns: columns.copy(),
        conditions: conditions.copy(),
    }
}

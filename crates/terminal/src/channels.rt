// The channels of a terminal, and what becomes of them as a plan is carried out.
ghost use Rattle.std.specs.Prelude.{◌≡◌, ◌≤◌, ◌==◌, length, IfOk, IfErr, OnOk, OnErr, false, None, Ok, unwrap_or, option_copied};
ghost use Rattle.script.specs.declared.statement.Statement.TheVariants.{Blank};
ghost use Rattle.std.specs.Option.{option_map_or};
ghost use Rattle.scql_model.specs.Machine.{Machine};
ghost use Rattle.script.specs.Commands.{CanAlwaysBeSent, CanBeSent};
ghost use Rattle.script.specs.Line.{statement_of};
ghost use Rattle.card_link.specs.Link.{AfterOutput};
ghost use Rattle.planner.specs.Held as held;
ghost use Rattle.planner.specs.Meaning.{meaning};
ghost use Rattle.planner.specs.Readings.{IsSelect};
ghost use Rattle.planner.specs.Running.{shown};
ghost use Rattle.planner.specs.StatementLines.{read_effect};
ghost use Rattle.terminal.specs.Ending.{EndsLine, EndsQuietLine, LineLeaves, QuietLeaves};
ghost use Rattle.terminal.specs.Going.{PlanRuns};
ghost use Rattle.terminal.specs.Holding as holding;
ghost use Rattle.terminal.specs.Holding.{IsStarted, Knows, MayRun};
ghost use Rattle.terminal.specs.Line as line_specs;
ghost use Rattle.terminal.specs.Line.{ClosesSo, refusal_in, rows_in};
ghost use Rattle.terminal.specs.Quiet.{closing_in};
ghost use Rattle.terminal.specs.Failing.{RunLeaves};

use crate::failure::Failure;
use crate::following::{Room, carry_out, give};
use crate::printing::closing_text;
use crate::{LineEnd, QuietEnd, Refusal};
use card_link::{CardLink, Desk};
use planner::{Closing, Plan};
use scql_base::{Operation, StatusWord};
use script::{ScriptFault, Statement};
use std::marker::Model;
use taken_line::TakenLine;

/// The channel of a terminal's statements, and the one that has the open transaction.
#[derive(Drop)]
pub(crate) struct Channels {
    channel: u8,
    transaction: Option<u8>,
}

impl Model for Channels {
    ghost use Rattle.std.specs.Prelude.{◌≤◌};
    ghost use Rattle.terminal.specs.Holding.{Holding};

    ghost Value = { Holding };

    ghost view = { λ c. record { channel = c.channel; transaction = c.transaction } };

    ghost invariant = { λ c. c.channel ≤ 3 };
}

impl Channels {
    /// Channel 0, and no transaction.
    pub fn new() -> Channels
        ensures { result ≡ record { channel = 0; transaction = None } }
    {
        Channels {
            channel: 0,
            transaction: None,
        }
    }

    /// Reads the statement of a line into its plan.
    pub fn read(&self, line: TakenLine<'_>, plan: &mut Plan) -> Result<(), ScriptFault>
        ensures statement { OnOk result (statement_of line.entry.octets.now ≡ Ok plan.new.statement) }
        ensures started { OnOk result (IsStarted self.now plan.new) }
        ensures sendable { OnOk result (CanAlwaysBeSent plan.new.statement) }
        ensures fault { IfErr result (λ fault. statement_of line.entry.octets.now ≡ Err fault) }
    {
        plan.read(
            line,
            self.channel,
            is_inside(self.transaction, self.channel),
        )
    }

    /// Carries out the plan of a statement.
    pub(crate) fn run<L: Desk>(&mut self, link: &mut L, plan: &mut Plan, room: &mut Room) -> LineEnd
        requires { MayRun L.is_live self.old plan.old link.old }
        ensures ended { EndsLine L.is_at L.given L.mark L.chip (λ state. read_effect state (Ok plan.old.statement)) (λ state. rows_in state (Ok plan.old.statement)) (λ state. refusal_in state (Ok plan.old.statement))
            self.old self.new result link.old link.new }
        ensures leaves { LineLeaves L.is_live L.faults L.sink_faults L.goes_on result link.old link.new }
    {
        match self.carry(link, plan, room) {
            Ok(closing) => close(link, &closing_text(closing), refusal_of(closing)),
            Err(Failure::Card) => LineEnd::Mute,
            Err(Failure::Outlet) => LineEnd::SinkFault,
        }
    }

    // Carries out the plan of a statement, but for its closing line.
    fn carry<L: Desk>(
        &mut self,
        desk: &mut L,
        plan: &mut Plan,
        room: &mut Room,
    ) -> Result<Closing, Failure>
        requires { MayRun L.is_live self.old plan.old desk.old }
        ensures sent { CanBeSent self.old.channel plan.old.statement }
        ensures holds { IfOk result (λ closing. self.new ≡ holding.holding_after plan.old.statement closing self.old) }
        ensures stays { OnErr result (self.new ≡ self.old) }
        ensures runs { (m : Machine) → L.is_at desk.old m → Knows self.old.transaction m
            → PlanRuns L.is_at L.given L.mark L.chip m (IsSelect plan.old.statement) (shown (meaning m self.old.channel plan.old.statement)) result desk.old desk.new }
        ensures leaves { RunLeaves L.is_live L.faults L.sink_faults L.goes_on result desk.old desk.new }
    {
        let channel = channel_after(plan.statement(), self.channel);
        let transaction = transaction_after(plan.statement(), self.channel, self.transaction);
        match carry_out(desk, plan, room) {
            Ok(closing) => {
                self.go_on(channel, transaction, closing);
                Ok(closing)
            }
            Err(failure) => Err(failure),
        }
    }

    /// Carries out the plan of a statement, and prints nothing.
    pub(crate) fn run_quietly<L: CardLink>(
        &mut self,
        link: &mut L,
        plan: &mut Plan,
        room: &mut Room,
    ) -> QuietEnd
        requires { MayRun L.is_live self.old plan.old link.old }
        ensures ended { EndsQuietLine L.is_at L.mark L.chip (λ state. read_effect state (Ok plan.old.statement)) (λ state. closing_in state (Ok plan.old.statement)) self.old self.new result link.old link.new }
        ensures leaves { QuietLeaves L.is_live L.faults L.mark L.keeps L.goes_on result link.old link.new }
    {
        let channel = channel_after(plan.statement(), self.channel);
        let transaction = transaction_after(plan.statement(), self.channel, self.transaction);
        match card_asking::carry_out(link, plan, &mut room.step, &mut room.reply) {
            Ok(closing) => {
                self.go_on(channel, transaction, closing);
                QuietEnd::Closed { closing }
            }
            Err(_) => QuietEnd::Mute,
        }
    }

    /// Goes on behind a command that was sent past the terminal and answered by this word.
    pub(crate) fn note(&mut self, command: &[u8], word: StatusWord)
        ensures { self.new ≡ record self.old { transaction = held.held_after_octets command.now word self.old.transaction } }
    {
        if word.word == StatusWord::DONE.word {
            self.transaction = held_behind(command, self.transaction);
        }
    }

    // Goes on with a channel, and where a statement was done with what it made of the open transaction.
    fn go_on(&mut self, channel: u8, transaction: Option<u8>, closing: Closing)
        requires { channel ≤ 3 }
        ensures channel { self.new.channel ≡ channel }
        ensures transaction { self.new.transaction ≡ held.held_when closing transaction self.old.transaction }
    {
        self.channel = channel;
        if closing == Closing::Fine {
            self.transaction = transaction;
        }
    }
}

/// Prints a closing line, if there is one, of a line that was refused for this reason, or wasn't.
pub(crate) fn close<L: Desk>(link: &mut L, text: &[u8], refusal: Option<Refusal>) -> LineEnd
    ensures closes { ClosesSo L.given L.is_live L.faults L.sink_faults text.now refusal result link.old link.new }
    ensures gives { AfterOutput L.is_at L.is_live L.faults L.mark L.chip link.old link.new }
    ensures goes_on { L.goes_on link.old link.new }
{
    if !text.is_empty() && give(link, text).is_err() {
        return LineEnd::SinkFault;
    }
    match refusal {
        Some(why) => LineEnd::Refused { why },
        None => LineEnd::Answered,
    }
}

// Why a statement was refused that closed so, if it was.
fn refusal_of(closing: Closing) -> Option<Refusal>
    ensures { result ≡ line_specs.refusal_of closing }
{
    match closing {
        Closing::Refused { word } => Some(Refusal::Word { word }),
        _ => None,
    }
}

// Whether a channel has the open transaction.
fn is_inside(transaction: Option<u8>, channel: u8) -> bool
    ensures { result ≡ option_map_or (λ own. own == channel) transaction false }
{
    match transaction {
        Some(held) => held == channel,
        None => false,
    }
}

fn channel_after(statement: Option<&Statement>, channel: u8) -> u8
    ensures { result ≡ held.channel_after (unwrap_or (option_copied statement.entry) Blank) channel }
{
    match statement {
        Some(Statement::UseNumber { number }) => *number,
        Some(Statement::Reset) => 0,
        _ => channel,
    }
}

fn transaction_after(
    statement: Option<&Statement>,
    channel: u8,
    transaction: Option<u8>,
) -> Option<u8>
    ensures { result ≡ held.held_after (unwrap_or (option_copied statement.entry) Blank) channel transaction }
{
    match statement {
        Some(
            Statement::Single {
                operation: Operation::Begin,
            },
        ) => Some(channel),
        Some(
            Statement::Single {
                operation: Operation::Commit | Operation::Rollback,
            }
            | Statement::Reset,
        ) => None,
        _ => transaction,
    }
}

// The channel that has the open transaction behind the octets of a command that was done.
fn held_behind(command: &[u8], transaction: Option<u8>) -> Option<u8>
    ensures { result ≡ held.held_by_octets command.now transaction }
{
    match command {
        [class, 0x12, 0x00, 0x80, ..] => Some(class % 4),
        [_, 0x12, 0x00, 0x81 | 0x82, ..] => None,
        _ => transaction,
    }
}

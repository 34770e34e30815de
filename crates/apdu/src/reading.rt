// Command APDUs, read as far as their data fields (ISO/IEC 7816-4).
ghost use Rattle.std.specs.Prelude.{◌≡◌, ◌≤◌, ◌<◌, ℕ, true, Some, Option, IfOk, IfErr, length, slice_get, min};
ghost use Rattle.scql_base.specs.Words.{instruction_not_supported};
ghost use Rattle.scql_base.specs.declared.operation.TheConstants.Command.{LONGEST_IN_PARTS};
ghost use Rattle.scql_base.specs.declared.row.TheConstants.Row.{LARGEST};
ghost use Rattle.scql_model.specs.Form as form;
ghost use Rattle.scql_model.specs.Machine.{Chain};
ghost use Rattle.scql_model.specs.Refusals as refusals;
ghost use Rattle.scql_model.specs.Operations as table;
ghost use Rattle.apdu.specs.Reading.{AsksChannel, AsksOn, IsOnOpen, apdu_on, command_of, completed, seen, word_of};

use crate::fields::{DataField, read_operation};
use crate::table::{has_instruction, line_of};
use crate::tail::taken_in;
use scql_base::{Command, Line, Operation, OperationKind, Row, StatusWord};

// The largest row, in the type of a limit.
const LARGEST_ROW: u16 = Row::LARGEST as u16;

/// A command APDU on an open channel, before its data field is read: the operation that it asks for, whether the command goes
/// on in the next APDU, and the data field, which has no octets where there is none.
#[derive(Drop)]
pub struct Apdu<'a> {
    pub channel: u8,
    pub kind: OperationKind,
    pub is_part: bool,
    pub body: &'a [u8],
    pub le: Option<u16>,
}

/// Why octets are no command APDU: a refusal before they come to an open channel, or one on a channel.
#[derive(Clone, Copy, PartialEq, Eq, Debug, Drop)]
pub enum Refusal {
    Nowhere { word: StatusWord },
    On { channel: u8, word: StatusWord },
}

impl<'a> Apdu<'a> {
    /// The command APDU that octets are, where these channels are open.
    pub fn read(octets: &'a [u8], channels: [bool; 4]) -> Result<Apdu<'a>, Refusal>
        ensures form { (chain : ℕ → Option Chain) (limit : ℕ)
            → form.form_of table.operations octets.now channels chain limit ≡ completed result chain limit }
        ensures on_open { IfOk result (λ apdu. slice_get channels apdu.channel ≡ Some true) }
        ensures channel { IfOk result (λ apdu. apdu.channel < 4) }
        ensures short { IfOk result (λ apdu. length apdu.body.now ≤ 255) }
        ensures refusal { IfErr result (IsOnOpen channels) }
    {
        let [cla, ins, p1, p2, after @ ..] = octets else {
            return Err(Refusal::Nowhere {
                word: StatusWord::WRONG_LENGTH,
            });
        };
        match channel_asked(*cla, *ins, channels) {
            Err(word) => Err(Refusal::Nowhere { word }),
            Ok(channel) => match apdu_on(channel, *cla, *ins, *p1, *p2, after) {
                Err(word) => Err(Refusal::On { channel, word }),
                Ok(apdu) => Ok(apdu),
            },
        }
    }

    /// Reads the command of this APDU's operation that has this data field, of at most 1,275 octets, into a place, where a row has at
    /// most so many octets, and never more than 1,020. Where it is refused, what the place has is left open.
    pub fn read_into(
        &self,
        body: &[u8],
        limit: u16,
        command: &mut Command,
    ) -> Result<(), StatusWord>
        requires { length body.now ≤ LONGEST_IN_PARTS }
        ensures { seen (λ _. command.new) result ≡ command_of self.now (min limit LARGEST) body.now }
    {
        let field = DataField {
            octets: body,
            limit: limit.min(LARGEST_ROW),
        };
        command.channel = self.channel;
        command.le = self.le;
        // A place that asks for the next row already is left as it is, since a scan asks for nothing else.
        if self.kind == OperationKind::FetchNext
            && matches!(command.operation, Operation::FetchNext)
        {
            return Ok(());
        }
        match read_operation(self.kind, &field, &mut command.operation) {
            Some(()) => Ok(()),
            None => Err(StatusWord::WRONG_DATA),
        }
    }
}

impl Refusal {
    /// The status word that is answered.
    pub fn word(&self) -> StatusWord
        ensures { result ≡ word_of self.now }
    {
        match self {
            Refusal::Nowhere { word } | Refusal::On { word, .. } => *word,
        }
    }
}

// The open channel that a known instruction of the class is for.
fn channel_asked(cla: u8, ins: u8, channels: [bool; 4]) -> Result<u8, StatusWord>
    ensures { AsksChannel channels (form.channel_asked table.operations cla ins channels) result }
{
    check_class(cla)?;
    check_instruction(ins)?;
    channel_of(cla, channels)
}

// What is asked for on a channel.
fn apdu_on(
    channel: u8,
    cla: u8,
    ins: u8,
    p1: u8,
    p2: u8,
    after: &[u8],
) -> Result<Apdu<'_>, StatusWord>
    ensures { AsksOn channel (apdu_on channel cla ins p1 p2 after.now) result }
{
    let line = line_on(channel, ins, p1, p2)?;
    let is_part = is_chained(cla);
    let tail = taken_in(line.takes, is_part, after)?;
    Ok(Apdu {
        channel,
        kind: line.kind,
        is_part,
        body: tail.field(),
        le: tail.le,
    })
}

fn check_class(cla: u8) -> Result<(), StatusWord>
    ensures { result ≡ form.class_of cla }
{
    if cla >> 5 != 0 {
        return Err(StatusWord::CLASS_NOT_SUPPORTED);
    }
    if (cla >> 2) & 3 != 0 {
        return Err(StatusWord::SECURE_MESSAGING_NOT_SUPPORTED);
    }
    Ok(())
}

// The command goes on in the next one.
fn is_chained(cla: u8) -> bool
    ensures { result ≡ form.is_chained cla }
{
    (cla >> 4) & 1 == 1
}

fn check_instruction(ins: u8) -> Result<(), StatusWord>
    ensures { result ≡ refusals.provided (table.has_instruction table.operations ins) instruction_not_supported }
{
    if has_instruction(ins) {
        Ok(())
    } else {
        Err(StatusWord::INSTRUCTION_NOT_SUPPORTED)
    }
}

fn channel_of(cla: u8, channels: [bool; 4]) -> Result<u8, StatusWord>
    ensures { AsksChannel channels (form.channel_of cla channels) result }
{
    let channel = cla % 4;
    match channels.as_slice().get(channel as usize).copied() {
        Some(true) => Ok(channel),
        _ => Err(StatusWord::CHANNEL_NOT_SUPPORTED),
    }
}

fn is_for_channel(channel: u8, kind: OperationKind) -> bool
    ensures { result ≡ table.is_for_channel channel kind }
{
    !(channel == 0 && kind == OperationKind::CloseChannel { number: 0 })
}

// The operation for INS, P1 and P2 on a channel.
fn line_on(channel: u8, ins: u8, p1: u8, p2: u8) -> Result<Line, StatusWord>
    ensures { result ≡ form.line_on table.operations channel ins p1 p2 }
{
    let line = line_of(ins, p1, p2).ok_or(StatusWord::WRONG_PARAMETERS)?;
    if !is_for_channel(channel, line.kind) {
        return Err(StatusWord::WRONG_PARAMETERS);
    }
    Ok(line)
}

// Commands, read from octets and written (ISO/IEC 7816-4, command APDU).
ghost use Rattle.std.specs.Prelude.{◌≡◌, ◌<◌, ◌≤◌, ◌+◌, [], ℕ, Bool, List, Some, Ok, true, IfOk, length, slice_get, min};
ghost use Rattle.scql_base.specs.declared.operation.TheConstants.Command.{LONGEST_IN_PARTS};
ghost use Rattle.scql_base.specs.declared.row.TheConstants.Row.{LARGEST};
ghost use Rattle.scql_model.specs.Form as form;
ghost use Rattle.scql_model.specs.Operations as table;
ghost use Rattle.scql_model.specs.Spelling as spelling;
ghost use Rattle.scql_model.specs.WellFormed.{IsWellFormed};
ghost use Rattle.apdu.specs.Reading.{completed};
ghost use Rattle.apdu.specs.Writing.{HasPart, IsOnePart, field_fits, size_in_parts};

use crate::field::{Field, has_field};
use crate::parts::longest_field;
use crate::reading::Apdu;
use crate::table::kind_of;
use crate::writing::{CommandOctets, parts_for, put_part};
use scql_base::{Command, Operation, StatusWord};

/// Commands in octets.
pub trait CommandApdu: Sized {
    /// Its data field isn't too long to be written.
    ghost can_be_written: { Self → Bool };

    /// How many parts it has.
    ghost part_count: { Self → ℕ };

    /// Its octets.
    ghost octets: { Self → List ℕ };

    /// The octets of its part at a place.
    ghost part_octets: { Self → ℕ → List ℕ };

    /// The command that octets are, where these channels are open and a row has at most so many octets, and never more than
    /// 1,020, or the status word of the first refusal. A part of a command is refused.
    fn read(octets: &[u8], channels: [bool; 4], limit: u16) -> Result<Self, StatusWord>;

    /// Whether the data field has at most 255 octets, and that of INSERT or UPDATE at most 1,275.
    fn fits(&self) -> bool
        ensures { result ≡ can_be_written self.now };

    /// The least number of parts of 255 octets that hold the data field, and at least 1.
    fn parts(&self) -> u8
        requires { can_be_written self.now ≡ true }
        ensures { result ≡ part_count self.now };

    /// Writes a command of one part.
    fn write(&self, out: &mut CommandOctets)
        requires { IsOnePart (can_be_written self.now) (part_count self.now) }
        ensures { out.new.items ≡ octets self.now };

    /// Writes the part at a place, counted from 0. All but the last say that the command goes on.
    fn write_part(&self, part: u8, out: &mut CommandOctets)
        requires { HasPart (can_be_written self.now) (part_count self.now) part }
        ensures { out.new.items ≡ part_octets self.now part };
}

impl CommandApdu for Command {
    ghost can_be_written = { spelling.fits };

    ghost part_count = { spelling.part_count };

    ghost octets = { spelling.octets_of };

    ghost part_octets = { spelling.part_octets };

    fn read(octets: &[u8], channels: [bool; 4], limit: u16) -> Result<Command, StatusWord>
        ensures command { result ≡ form.as_command (form.form_of table.operations octets.now channels form.no_chain (min limit LARGEST)) }
        ensures formed { IfOk result IsWellFormed }
        ensures on_open { IfOk result (λ command. slice_get channels command.channel ≡ Some true) }
    {
        match Apdu::read(octets, channels) {
            Err(refusal) => Err(refusal.word()),
            Ok(apdu) => command_in(&apdu, limit),
        }
    }

    fn fits(&self) -> bool
        ensures { result ≡ spelling.fits self.now }
    {
        field_fits(&self.operation)
    }

    fn parts(&self) -> u8
        requires { spelling.fits self.now ≡ true }
        ensures { result ≡ spelling.part_count self.now }
    {
        match size_in_parts(&self.operation) {
            Some(size) => parts_for(size),
            None => 1,
        }
    }

    fn write(&self, out: &mut CommandOctets)
        requires { IsOnePart (spelling.fits self.now) (spelling.part_count self.now) }
        ensures octets { out.new.items ≡ spelling.octets_of self.now }
        ensures read_back { (limit : ℕ)
            → IsWellFormed self.now
            → spelling.IsTaken (table.has_secrets table.operations) limit self.now.operation
            → spelling.ReadsAs table.operations limit self.now [] out.new.items (form.a_command self.now) }
    {
        self.write_part(0, out);
    }

    fn write_part(&self, part: u8, out: &mut CommandOctets)
        requires { HasPart (spelling.fits self.now) (spelling.part_count self.now) part }
        ensures octets { out.new.items ≡ spelling.part_octets self.now part }
        ensures part { (limit : ℕ)
            → IsWellFormed self.now → part + 1 < spelling.part_count self.now
            → spelling.ReadsAs table.operations limit self.now (spelling.first_parts part (spelling.field_of self.now.operation)) out.new.items
            (form.part_on self.now.channel (table.kind_of self.now.operation) (spelling.part_at part (spelling.field_of self.now.operation))) }
        ensures last { (limit : ℕ)
            → IsWellFormed self.now → part + 1 ≡ spelling.part_count self.now
            → spelling.IsTaken (table.has_secrets table.operations) limit self.now.operation
            → spelling.ReadsAs table.operations limit self.now (spelling.first_parts part (spelling.field_of self.now.operation)) out.new.items
            (form.a_command self.now) }
    {
        Part {
            command: self,
            place: part,
        }
        .write(out);
    }
}

/// Whether the data field of an operation has at most 255 octets, and that of INSERT or UPDATE at most 1,275: a command
/// fits where that of its operation does.
pub fn field_fits(operation: &Operation) -> bool
    ensures { (command : Command) → command.operation ≡ operation.now → result ≡ spelling.fits command }
{
    match size_in_parts(operation) {
        Some(size) => size <= Command::LONGEST_IN_PARTS,
        None => written_fits(operation),
    }
}

// How many octets the data field of an operation has, where it may come in parts.
fn size_in_parts(operation: &Operation) -> Option<usize>
    ensures { result ≡ size_in_parts operation.now }
{
    match operation {
        Operation::Insert { table, row } => Some(1 + table.octets().len() + row.octets().len()),
        Operation::Update { changes } => Some(changes.octets().len()),
        _ => None,
    }
}

// Whether the data field of an operation fits, as it is put together.
#[inline(never)]
fn written_fits(operation: &Operation) -> bool
    ensures { result ≡ field_fits operation.now }
{
    let mut field = Field::new();
    field.put_operation(operation);
    match field.octets() {
        Some(field) => field.len() <= longest_field(kind_of(operation)),
        None => false,
    }
}

// A part of a command that fits, at a place that is counted from 0.
#[derive(Drop)]
struct Part<'c> {
    command: &'c Command,
    place: u8,
    ghost fits: { spelling.fits command.now ≡ true },
    ghost there: { place < spelling.part_count command.now },
}

impl<'c> Part<'c> {
    // Writes it.
    fn write(&self, out: &mut CommandOctets)
        ensures { out.new.items ≡ spelling.part_octets self.now.command.now self.now.place }
    {
        match &self.command.operation {
            Operation::Update { changes } => {
                put_part(self.command, changes.octets(), self.place, out)
            }
            operation if has_field(operation) => write_field(self, out),
            _ => put_part(self.command, &[], self.place, out),
        }
    }
}

// Puts the data field together, in a place that is cleared for such commands alone, and writes the part of it.
#[inline(never)]
fn write_field(part: &Part<'_>, out: &mut CommandOctets)
    ensures { out.new.items ≡ spelling.part_octets part.now.command.now part.now.place }
{
    let mut field = Field::new();
    field.put_operation(&part.command.operation);
    put_part(part.command, field.written(), part.place, out);
}

// The command that an APDU is by itself.
fn command_in(apdu: &Apdu<'_>, limit: u16) -> Result<Command, StatusWord>
    requires { length apdu.now.body.now ≤ LONGEST_IN_PARTS }
    ensures command { result ≡ form.as_command (completed (Ok apdu.now) form.no_chain (min limit LARGEST)) }
    ensures channel { IfOk result (λ command. command.channel ≡ apdu.now.channel) }
{
    if apdu.is_part {
        return Err(StatusWord::CHAINING_NOT_SUPPORTED);
    }
    let mut command = Command {
        channel: apdu.channel,
        operation: Operation::Next,
        le: apdu.le,
    };
    apdu.read_into(apdu.body, limit, &mut command)?;
    Ok(command)
}

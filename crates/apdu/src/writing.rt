// Command APDUs, written (ISO/IEC 7816-4): CLA, INS, P1 and P2, the data with Lc, and Le.
ghost use Rattle.std.specs.Prelude.{◌≡◌, ◌<◌, ◌≤◌, ◌*◌, ◌++◌, None, if◌then◌else◌, length};
ghost use Rattle.scql_model.specs.Spelling as spelling;
ghost use Rattle.apdu.specs.Writing.{part_of};

use crate::table::{kind_of, line_for};
use arrayvec::ArrayVec;
use scql_base::{Command, Line};

/// The octets of a command APDU.
pub type CommandOctets = ArrayVec<u8, 261>;

// The least number of parts that hold a data field of so many octets, and at least 1.
pub(crate) fn parts_for(size: usize) -> u8
    requires { size ≤ 1275 }
    ensures { result ≡ spelling.parts_for size }
{
    size.div_ceil(Command::LONGEST_DATA).max(1) as u8
}

// The part of a data field at a place, counted from 0.
fn part_at(place: u8, field: &[u8]) -> &[u8]
    requires { 255 * place ≤ length field.now }
    ensures part { result.now ≡ spelling.part_at place field.now }
    ensures short { length result.now ≤ 255 }
{
    let rest = &field[Command::LONGEST_DATA * usize::from(place)..];
    &rest[..rest.len().min(Command::LONGEST_DATA)]
}

// The channel, and whether the command goes on in the next one.
fn cla_of(channel: u8, is_part: bool) -> u8
    ensures { result ≡ spelling.cla_of channel is_part }
{
    channel % 4 + if is_part { 0x10 } else { 0 }
}

// Le stands in the last part.
fn le_after(is_part: bool, le: Option<u16>) -> Option<u16>
    ensures { result ≡ (if is_part then None else le) }
{
    if is_part { None } else { le }
}

// Writes the part of a command at a place of its data field. An operation that stands in no line of the table is written as no octets.
pub(crate) fn put_part(command: &Command, field: &[u8], part: u8, out: &mut CommandOctets)
    requires short { length field.now ≤ 1275 }
    requires there { part < spelling.parts_for (length field.now) }
    ensures { out.new.items ≡ part_of command.now field.now part }
{
    let Some(line) = line_for(kind_of(&command.operation)) else {
        out.clear();
        return;
    };
    let is_part = part + 1 < parts_for(field.len());
    let cla = cla_of(command.channel, is_part);
    let le = le_after(is_part, command.le);
    put_apdu(&line, cla, part_at(part, field), le, out);
}

// Writes a command APDU by the line of its operation.
fn put_apdu(line: &Line, cla: u8, body: &[u8], le: Option<u16>, out: &mut CommandOctets)
    requires { length body.now ≤ 255 }
    ensures { out.new.items ≡ spelling.apdu_by line.now cla body.now le }
{
    out.clear();
    out.push(cla);
    out.push(line.ins);
    out.push(line.p1);
    out.push(line.p2);
    put_body(body, out);
    put_le(le, out);
}

// Lc and the data, where there are any.
fn put_body(body: &[u8], out: &mut CommandOctets)
    requires short { length body.now ≤ 255 }
    requires room { length out.old.items ≤ 4 }
    ensures { out.new.items ≡ out.old.items ++ spelling.with_length body.now }
{
    if body.is_empty() {
        return;
    }
    out.push(body.len() as u8);
    let fits = out.try_extend_from_slice(body).is_ok();
    prove!(fits);
}

// Le in one octet, where there is one. 256 is 00.
fn put_le(le: Option<u16>, out: &mut CommandOctets)
    requires { length out.old.items ≤ 260 }
    ensures { out.new.items ≡ out.old.items ++ spelling.le_octets le }
{
    if let Some(le) = le {
        out.push((le % 256) as u8);
    }
}

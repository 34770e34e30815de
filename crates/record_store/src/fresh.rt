// Formatting: a new store of two records.
ghost use Rattle.std.specs.Prelude.{◌+◌, ◌*◌, ◌≤◌, length};
ghost use Rattle.eeprom.specs.StoreOf.{cell_size};
ghost use Rattle.record_store.specs.Appends.{AppendsUpTo, MayWrite, end_of};
ghost use Rattle.record_store.specs.Format.{ClearsFront, Formats, MayFormat, MayWriteBody, WritesBody};
ghost use Rattle.record_store.specs.FreshImage.{one_cell_record, fresh_header, fresh_directory, fresh_cell};

use crate::layout::{FORMAT, MAGIC};
use crate::writer::Writer;
use crate::{FormatRefusal, Store};
use cell_store::octets_of;
use eeprom::{Eeprom, EepromFault, PIECE_SIZE, image_size};

/// How many octets a record has at most that one cell holds.
const ONE_CELL_RECORD: usize = PIECE_SIZE - 2;

impl Store {
    /// Makes a new store, which has these two records in its first slots.
    /// What an image with a store begins with is written last, when all else is there.
    pub fn format<B: Eeprom>(
        bench: &mut B,
        cells: u16,
        first: &[u8],
        second: &[u8],
    ) -> Result<(), FormatRefusal>
        requires { MayFormat cells first.now second.now }
        ensures { Formats B.chip B.faults cells first.now second.now bench.old bench.new result }
    {
        if bench.size() < image_size(cells) {
            return Err(FormatRefusal::TooSmall);
        }
        clear_front(bench)?;
        write_body(bench, cells, first, second)?;
        bench.write(0, &MAGIC)?;
        Ok(())
    }
}

/// Takes away what an image with a store begins with, where it is there.
fn clear_front<B: Eeprom>(bench: &mut B) -> Result<(), EepromFault>
    requires room { 4 ≤ (B.chip bench.old).still.size }
    ensures { ClearsFront B.chip B.faults bench.old bench.new result }
{
    let mut front = [0; 4];
    bench.read(0, &mut front)?;
    if front == MAGIC {
        bench.write(0, &[0; 4])?;
    }
    Ok(())
}

/// Writes all that comes behind the first four octets.
fn write_body<B: Eeprom>(
    bench: &mut B,
    cells: u16,
    first: &[u8],
    second: &[u8],
) -> Result<(), EepromFault>
    requires { MayWriteBody cells first.now second.now (B.chip bench.old) }
    ensures { WritesBody B.chip B.faults cells first.now second.now bench.old bench.new result }
{
    let mut writer = Writer::new(4);
    write_header(&mut writer, bench, cells)?;
    write_directory(&mut writer, bench, cells)?;
    write_cell(&mut writer, bench, first)?;
    write_cell(&mut writer, bench, second)?;
    writer.fill(bench, 0, 64 * cells as usize - 64)?;
    writer.flush(bench)
}

fn write_header<B: Eeprom>(
    writer: &mut Writer,
    bench: &mut B,
    cells: u16,
) -> Result<(), EepromFault>
    requires ready { MayWrite writer.old (end_of writer.old + 28) (B.chip bench.old) }
    ensures { AppendsUpTo B.chip B.faults (fresh_header cells) (end_of writer.old + 28) writer.old writer.new bench.old bench.new result }
{
    let [high, low] = octets_of(cells);
    writer.append(bench, &[FORMAT, 0, high, low])?;
    writer.fill(bench, 0, 24)
}

fn write_directory<B: Eeprom>(
    writer: &mut Writer,
    bench: &mut B,
    cells: u16,
) -> Result<(), EepromFault>
    requires few { 2 ≤ cells }
    requires ready { MayWrite writer.old (end_of writer.old + (6 * cells + 2)) (B.chip bench.old) }
    ensures { AppendsUpTo B.chip B.faults (fresh_directory cells) (end_of writer.old + (6 * cells + 2)) writer.old writer.new bench.old bench.new result }
{
    let count = cells as usize;
    writer.append(bench, &[0, 0, 0, 1])?;
    writer.fill(bench, 0xFF, 2 * count - 4)?;
    writer.fill(bench, 0, 4 * count + 2)
}

fn write_cell<B: Eeprom>(
    writer: &mut Writer,
    bench: &mut B,
    octets: &[u8],
) -> Result<(), EepromFault>
    requires short { length octets.now ≤ one_cell_record }
    requires ready { MayWrite writer.old (end_of writer.old + cell_size) (B.chip bench.old) }
    ensures { AppendsUpTo B.chip B.faults (fresh_cell octets.now) (end_of writer.old + cell_size) writer.old writer.new bench.old bench.new result }
{
    writer.append(bench, &[0xFF, 0xFF, 0, octets.len() as u8])?;
    writer.append(bench, octets)?;
    writer.fill(bench, 0, ONE_CELL_RECORD - octets.len())
}

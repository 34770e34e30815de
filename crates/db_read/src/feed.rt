// The rows that a cursor chooses, as feeds.
use crate::chosen::Chosen;
use crate::reader::Reader;
use crate::rows::{chosen_row, next_chosen, next_chosen_row};
use crate::scan::RowRoom;
use crate::telling::{Told, next_told, next_told_row, told_row};
use cursor::RowFeed;
use eeprom::{Eeprom, EepromFault};
use scql_base::Row;

/// Rows of a table.
#[derive(Drop)]
pub(crate) struct ChosenRows<'a, 'b, 'c, B: Eeprom> {
    pub(crate) reader: &'a mut Reader<'b, B>,
    pub(crate) chosen: Chosen<'c>,
    pub(crate) room: &'a mut RowRoom,
}

impl<'a, 'b, 'c, B: Eeprom> RowFeed for ChosenRows<'a, 'b, 'c, B> {
    ghost use Rattle.std.specs.Prelude.{◌≡◌, ℕ, Some};
    ghost use Rattle.record_table.specs.Listed.{slots_of};
    ghost use Rattle.db_read.specs.Chosen.{costs_shown, rows_shown};
    ghost use Rattle.db_read.specs.Reader.{Standing, standing};

    ghost tells = { λ f rows. rows_shown f.chosen (slots_of f.reader.now.store.now f.reader.now.side (B.chip f.reader.now.bench.now)) ≡ Some rows };

    ghost costs = { λ f. costs_shown f.chosen (slots_of f.reader.now.store.now f.reader.now.side (B.chip f.reader.now.bench.now)) };

    ghost Kept = { ℕ × Standing };

    ghost kept = { λ f. (f.reader.ghost_name, standing f.reader.now) };

    ghost chip = { λ f. B.chip f.reader.now.bench.now };

    ghost octets_read = { λ f. B.octets_read f.reader.now.bench.now };

    ghost faults = { λ f. B.faults f.reader.now.bench.now };

    fn next_after(&mut self, stamp: u32) -> Result<Option<u32>, EepromFault> {
        next_chosen(self.reader, &self.chosen, stamp, self.room)
    }

    fn row_at(&mut self, stamp: u32, out: &mut Row) -> Result<bool, EepromFault> {
        chosen_row(self.reader, &self.chosen, stamp, out, self.room)
    }

    fn next_row(&mut self, stamp: u32, out: &mut Row) -> Result<Option<u32>, EepromFault> {
        next_chosen_row(self.reader, &self.chosen, stamp, out, self.room)
    }
}

/// Rows of a dictionary.
#[derive(Drop)]
pub(crate) struct ToldRows<'a, 'b, 'c, B: Eeprom> {
    pub(crate) reader: &'a mut Reader<'b, B>,
    pub(crate) told: Told<'c>,
}

impl<'a, 'b, 'c, B: Eeprom> RowFeed for ToldRows<'a, 'b, 'c, B> {
    ghost use Rattle.std.specs.Prelude.{ℕ, None};
    ghost use Rattle.db_read.specs.Reader.{Standing, standing};
    ghost use Rattle.db_read.specs.Told.{TellsRows};

    ghost tells = { λ f rows. TellsRows f.told f.reader.now.store.now f.reader.now.side (B.chip f.reader.now.bench.now) rows };

    ghost costs = { λ _. None };

    ghost Kept = { ℕ × Standing };

    ghost kept = { λ f. (f.reader.ghost_name, standing f.reader.now) };

    ghost chip = { λ f. B.chip f.reader.now.bench.now };

    ghost octets_read = { λ f. B.octets_read f.reader.now.bench.now };

    ghost faults = { λ f. B.faults f.reader.now.bench.now };

    fn next_after(&mut self, stamp: u32) -> Result<Option<u32>, EepromFault> {
        next_told(self.reader, &self.told, stamp)
    }

    fn row_at(&mut self, stamp: u32, out: &mut Row) -> Result<bool, EepromFault> {
        told_row(self.reader, &self.told, stamp, out)
    }

    fn next_row(&mut self, stamp: u32, out: &mut Row) -> Result<Option<u32>, EepromFault> {
        next_told_row(self.reader, &self.told, stamp, out)
    }
}

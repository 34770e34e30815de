// A store with the index of its rows: transactions on both, and records made and changed in them.
ghost use Rattle.std.specs.Prelude.{◌≡◌, ◌<◌, [], ◌∷◌, Ok, Some, IsTrue, IfSome, OnOk, false, true};
ghost use Rattle.record_store.specs.declared.side.Side.TheVariants.{Working};
ghost use Rattle.scql_model.specs.Edits.{changing, making};
ghost use Rattle.scql_model.specs.Records.{of_row};
ghost use Rattle.catalog_codec.specs.Catalog.{row_kind};
ghost use Rattle.catalog_codec.specs.Kinds.{FitsChain, HaveOtherMarks};
ghost use Rattle.record_table.specs.Changed.{IsBegunOver};
ghost use Rattle.record_table.specs.Listed.{at_slot, slots_of};
ghost use Rattle.record_table.specs.Making.{IsValidWith, KeepsRows};
ghost use Rattle.record_table.specs.OneRecord.{IsCounter, TakesOut};
ghost use Rattle.record_table.specs.Swept.{Sweeps};
ghost use Rattle.row_table.specs.Found.{HasRowLike};
ghost use Rattle.row_table.specs.Tables.{Begins, Commits, Ended, InTransaction, RemovesRow, RemovesRows, RollsBack};
ghost use Rattle.row_table.specs.WithGrants.{goes_with_grants, left_with_grants, most_with_grants};

use catalog_codec::Counter;
use eeprom::{Eeprom, EepromFault};
use record_store::{Found, Side, Store};
use record_table::{Editable, Stop, Wanted, remove_each};
use row_index::RowIndex;
use scql_base::{Grant, RowRecord};

/// A store, and the index of its rows.
#[derive(Drop)]
pub struct Tables {
    pub store: Store,
    pub index: RowIndex,
}

impl Tables {
    /// Begins a transaction. Its working side is the committed one so far.
    pub fn begin(&mut self)
        requires idle { self.old.store.begun ≡ false }
        requires index_idle { self.old.index.begun ≡ false }
        ensures { Begins self.old self.new }
    {
        self.store.begin();
        self.index.begin();
    }

    /// Commits the transaction: what is on the working side is the committed state, at once. After a fault the tables aren't to be used again.
    pub fn commit<B: Eeprom>(&mut self, bench: &mut B) -> Result<(), EepromFault>
        requires open { InTransaction self.old (B.chip bench.old) }
        ensures { Commits B.chip B.faults bench.old bench.new self.old self.new result }
    {
        self.store.commit(bench)?;
        self.index.commit();
        Ok(())
    }

    /// Undoes the transaction.
    pub fn rollback(&mut self)
        requires begun { IsTrue self.old.store.begun }
        requires index_begun { IsTrue self.old.index.begun }
        ensures { RollsBack self.old self.new }
    {
        self.store.rollback();
        self.index.rollback();
    }

    /// Adds a record, but no row, that takes the counter's stamp, and counts on. Where there is no room for the record nothing is written.
    pub fn make<R: Editable, B: Eeprom>(
        &mut self,
        bench: &mut B,
        counter: &Found<Counter>,
        value: &R,
    ) -> Result<(), Stop>
        requires open { InTransaction self.old (B.chip bench.old) }
        requires spelled { R.can_encode value.now }
        requires counter { IsCounter self.old.store (B.chip bench.old) counter.now }
        requires no_row { HaveOtherMarks R.kind row_kind }
        ensures ended { Ended B.chip B.faults (λ db. (R.kind.key value.now ≡ db.next) × IsValidWith db (making db (R.any value.now))) (λ db. Ok (making db (R.any value.now)))
            bench.old bench.new self.old self.new result }
        ensures rows { OnOk result (KeepsRows (slots_of self.old.store Working (B.chip bench.old)) (slots_of self.new.store Working (B.chip bench.new))) }
    {
        record_table::make(&mut self.store, bench, counter, value)?;
        Ok(())
    }

    /// Adds a row that takes the counter's stamp, and counts on; the index takes it, too. Where there is no room for the row nothing is written.
    pub fn make_row<B: Eeprom>(
        &mut self,
        bench: &mut B,
        counter: &Found<Counter>,
        row: &RowRecord,
    ) -> Result<(), Stop>
        requires open { InTransaction self.old (B.chip bench.old) }
        requires spelled { FitsChain row_kind row.now }
        requires counter { IsCounter self.old.store (B.chip bench.old) counter.now }
        ensures { Ended B.chip B.faults (λ db. (row.now.stamp ≡ db.next) × IsValidWith db (making db (of_row row.now))) (λ db. Ok (making db (of_row row.now)))
            bench.old bench.new self.old self.new result }
    {
        let slot = record_table::make(&mut self.store, bench, counter, row)?;
        self.index.added(&self.store, row.table, slot);
        Ok(())
    }

    /// Puts a record, but no row, in the place of the one of its stamp. Where there is no room for it nothing is written.
    pub fn change_in_place<R: Editable, B: Eeprom>(
        &mut self,
        bench: &mut B,
        slot: u16,
        value: &R,
    ) -> Result<(), Stop>
        requires open { InTransaction self.old (B.chip bench.old) }
        requires spelled { R.can_encode value.now }
        requires there { slot < self.old.store.chains.cells }
        requires at { IfSome (slots_of self.old.store Working (B.chip bench.old)) (λ slots. (was : R) × (at_slot R.kind slot slots ≡ Some was) × (R.kind.key was ≡ R.kind.key value.now)) }
        requires no_row { HaveOtherMarks R.kind row_kind }
        ensures { Ended B.chip B.faults (λ db. IsValidWith db (changing (R.any value.now) ∷ [])) (λ db. Ok (changing (R.any value.now) ∷ [])) bench.old bench.new self.old self.new result }
    {
        record_table::change_in_place(&mut self.store, bench, slot, value)
    }

    /// Puts a row in the place of the one of its stamp and its table, so the index stands as it did. Where there is no room for it nothing is written.
    pub fn change_row<B: Eeprom>(
        &mut self,
        bench: &mut B,
        slot: u16,
        row: &RowRecord,
    ) -> Result<(), Stop>
        requires open { InTransaction self.old (B.chip bench.old) }
        requires spelled { FitsChain row_kind row.now }
        requires there { slot < self.old.store.chains.cells }
        requires same { IfSome (slots_of self.old.store Working (B.chip bench.old)) (HasRowLike row.now slot) }
        ensures ended { Ended B.chip B.faults (λ db. (row_kind.form.fits row.now ≡ true) × IsValidWith db (changing (of_row row.now) ∷ [])) (λ db. Ok (changing (of_row row.now) ∷ []))
            bench.old bench.new self.old self.new result }
        ensures index_same { self.new.index ≡ self.old.index }
    {
        record_table::change_in_place(&mut self.store, bench, slot, row)
    }

    /// Takes a record of a kind, but no row, out of the slot that has it.
    pub fn take_out<R: Editable>(&mut self, slot: u16)
        requires begun { IsTrue self.old.store.begun }
        requires there { slot < self.old.store.chains.cells }
        ensures takes { TakesOut R.kind R.any slot self.old.store self.new.store }
        ensures index_same { self.new.index ≡ self.old.index }
    {
        record_table::take_out::<R>(&mut self.store, slot);
    }

    /// Takes a record, but no row, out of its slot, and with it each grant that is wanted.
    pub fn remove_with_grants<W: Wanted<Grant>, B: Eeprom>(
        &mut self,
        bench: &mut B,
        slot: u16,
        grants: &W,
    ) -> Result<(), EepromFault>
        requires open { IsBegunOver self.old.store (B.chip bench.old) }
        requires there { slot < self.old.store.chains.cells }
        ensures sweeps { Sweeps B.chip B.faults (left_with_grants slot (W.wants grants.now)) (goes_with_grants slot (W.wants grants.now)) (most_with_grants slot (W.wants grants.now))
            bench.old bench.new self.old.store self.new.store result }
        ensures index_same { self.new.index ≡ self.old.index }
    {
        record_table::remove(&mut self.store, slot);
        remove_each(&mut self.store, bench, grants)?;
        Ok(())
    }

    /// Takes the row out of a slot, and its place out of the index.
    pub fn remove_row(&mut self, slot: u16)
        requires begun { IsTrue self.old.store.begun }
        requires index_begun { IsTrue self.old.index.begun }
        requires there { slot < self.old.store.chains.cells }
        ensures { RemovesRow slot self.old self.new }
    {
        self.index.removed(&self.store, slot);
        record_table::remove(&mut self.store, slot);
    }

    /// Takes each row of a table out of its slot, and its place out of the index.
    pub fn remove_rows(&mut self, table: u32)
        requires begun { IsTrue self.old.store.begun }
        requires index_begun { IsTrue self.old.index.begun }
        requires index_cells { self.old.index.cells ≡ self.old.store.chains.cells }
        ensures { RemovesRows table self.old self.new }
    {
        let Tables { store, index } = self;
        for slot in index.rows_of(store, Side::Working, table) {
            record_table::remove(store, *slot);
        }
        index.table_removed(table);
    }
}

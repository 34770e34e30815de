// Marks of the cells that chains have, among which free cells are found for a new one.
ghost use Rattle.std.specs.Prelude.{◌≡◌, ◌+◌, ◌≤◌, ◌<◌, ℕ, true, false, List, length, replicate, set, IfOk};
ghost use Rattle.eeprom.specs.StoreOf.{longest_chain};
ghost use Rattle.cell_store.specs.Cells.{link_in};
ghost use Rattle.cell_store.specs.Chains.{AreLinked, AreMarked, with_unmarked};
ghost use Rattle.cell_store.specs.Marks.{is_marked, IsFreeRun, IsLongest, IsLongestFrom, StaysMarked, unmarked};

use eeprom::{Heap, LONGEST_CHAIN};
use std::alloc::AllocError;
use std::marker::Model;

/// Neighbouring cells, of which this is the first.
#[derive(Clone, Copy)]
pub struct Run {
    pub cell: u16,
    pub count: u16,
}

/// Marks of cells. How many cells aren't marked is counted, and runs of them are searched from where one was last found, and at first
/// behind all that are marked.
#[derive(Drop)]
pub struct Marks {
    marks: Vec<bool, Heap>,
    free: u16,
    next: u16,
}

impl Model for Marks {
    ghost use Rattle.std.specs.Prelude.{List, Bool};
    ghost use Rattle.cell_store.specs.Marks.{IsCounted};

    ghost Value = { List Bool };

    ghost view = { λ marks. marks.marks.items };

    ghost invariant = { λ marks. IsCounted marks.marks.items marks.free };
}

impl Marks {
    /// Marks of so many cells, of which none is marked.
    pub fn with_room(alloc: Heap, count: u16) -> Result<Marks, AllocError>
        requires few { count ≤ 4096 }
        ensures { IfOk result (λ marks. marks ≡ replicate count false) }
    {
        Ok(Marks {
            marks: vec![in alloc; false; count as usize]?,
            free: count,
            next: 0,
        })
    }

    /// How many cells there are.
    pub fn len(&self) -> usize
        ensures { result ≡ length self.now }
    {
        self.marks.len()
    }

    /// How many cells aren't marked.
    pub fn count_free(&self) -> u16
        ensures { result ≡ unmarked self.now }
    {
        self.free
    }

    /// Whether a cell is marked.
    pub fn is_marked(&self, cell: u16) -> bool
        ensures { result ≡ is_marked self.now cell }
    {
        let place = cell as usize;
        place < self.marks.len() && self.marks[place]
    }

    /// Marks a cell.
    pub fn mark(&mut self, cell: u16)
        requires inside { cell < length self.old }
        requires free { is_marked self.old cell ≡ false }
        ensures { self.new ≡ set self.old cell true }
    {
        self.marks[cell as usize] = true;
        self.free -= 1;
        if self.next <= cell {
            self.next = cell.saturating_add(1);
        }
    }

    /// Marks a cell no more.
    pub fn unmark(&mut self, cell: u16)
        requires marked { is_marked self.old cell ≡ true }
        ensures { self.new ≡ set self.old cell false }
    {
        self.marks[cell as usize] = false;
        self.free += 1;
    }

    /// A run of neighbouring cells that aren't marked: one of `most` cells where there is such, and else a longest one.
    pub fn find_run(&mut self, most: u16) -> Run
        requires free { 1 ≤ unmarked self.old }
        requires most { 1 ≤ most }
        ensures same { self.new ≡ self.old }
        ensures free { IsFreeRun self.old result.cell result.count }
        ensures some { 1 ≤ result.count }
        ensures most { result.count ≤ most }
        ensures longest { IsLongest self.old most result.count }
    {
        let mut run = longest_run(self.marks.as_slice(), self.next, most);
        if run.count < most {
            run = longest_run(self.marks.as_slice(), 0, most);
        }
        self.next = run.cell + run.count;
        run
    }
}

/// Marks the cells of a chain that begins at a cell no more.
pub fn unmark_chain(marks: &mut Marks, links: &[u16], first: u16)
    requires links { length links.now ≡ length marks.old }
    requires few { length marks.old ≤ 4096 }
    ensures unmarked { (chain : List ℕ) → AreLinked (link_in links.now) (length links.now) first chain → AreMarked marks.old chain → length chain ≤ longest_chain
        → marks.new ≡ with_unmarked marks.old chain }
    ensures fewer { StaysMarked marks.new marks.old }
    ensures count { length marks.new ≡ length marks.old }
{
    let mut cell = first;
    for _step in 0..LONGEST_CHAIN {
        if !marks.is_marked(cell) {
            return;
        }
        marks.unmark(cell);
        cell = links[cell as usize];
    }
}

/// A run of cells from one on that aren't marked: one of `most` cells where there is such, and else a longest one.
fn longest_run(marks: &[bool], from: u16, most: u16) -> Run
    requires few { length marks.now ≤ 4096 }
    requires most { 1 ≤ most }
    ensures free { IsFreeRun marks.now result.cell result.count }
    ensures most { result.count ≤ most }
    ensures longest { IsLongestFrom marks.now from most result.count }
{
    let mut best = Run { cell: 0, count: 0 };
    let mut cell = from;
    while (cell as usize) < marks.len() {
        let count = count_free_from(marks, cell, most);
        if count == most {
            return Run { cell, count };
        }
        if count > best.count {
            best = Run { cell, count };
        }
        cell += count + 1;
    }
    best
}

/// How many cells from this one on aren't marked, up to `most`.
fn count_free_from(marks: &[bool], cell: u16, most: u16) -> u16
    requires few { length marks.now ≤ 4096 }
    requires inside { cell ≤ length marks.now }
    ensures free { IsFreeRun marks.now cell result }
    ensures most { result ≤ most }
    ensures longest { result < most → (count : ℕ) → IsFreeRun marks.now cell count → count ≤ result }
{
    for count in 0..most {
        let place = cell as usize + count as usize;
        if place >= marks.len() || marks[place] {
            return count;
        }
    }
    most
}

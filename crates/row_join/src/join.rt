// The join by value: the combinations that are kept, unless they are too many.
ghost use Rattle.std.specs.Prelude.{◌≡◌, ◌≤◌, ◌<◌, ◌+◌, ◌++◌, [], ◌∷◌, IfOk, length};
ghost use Rattle.row_join.specs.Joined.{AreIndexes, Keeps, MayExtend, MayJoin, joined, kept_after, rows_joined};
ghost use Rattle.row_join.specs.Places.{all_rows};

use crate::index::Index;
use crate::{Combination, Equality, Fetched};
use eeprom::Heap;
use std::alloc::AllocError;

/// How many combinations may be kept.
pub const MOST_KEPT: usize = 100_000;

/// What a join gives.
#[derive(Drop)]
pub enum Joined {
    /// The combinations that are kept, in the order in which the objects' rows stand.
    Kept {
        combinations: Vec<Combination, Heap>,
    },
    TooMany,
}

// Why a join ends before its last combination.
#[derive(Clone, Copy, Drop)]
enum Stop {
    TooMany,
    NoMemory,
}

/// The combinations of one row of each object in which the equalities hold. It ends as soon as there are too many.
pub fn join_rows(
    alloc: Heap,
    tables: &[Fetched],
    equalities: &[Equality],
) -> Result<Joined, AllocError>
    requires { MayJoin equalities.now tables.now }
    ensures { IfOk result (λ found. rows_joined tables.now found ≡ joined equalities.now tables.now) }
{
    let indexes = indexes_of(alloc, tables, equalities)?;
    let mut combinations = Vec::new(alloc);
    let first = Combination { places: [0; 3] };
    match extend(
        tables,
        indexes.as_slice(),
        equalities,
        0,
        first,
        &mut combinations,
    ) {
        Ok(()) => Ok(Joined::Kept { combinations }),
        Err(Stop::TooMany) => Ok(Joined::TooMany),
        Err(Stop::NoMemory) => Err(AllocError),
    }
}

// The index of each object.
fn indexes_of(
    alloc: Heap,
    tables: &[Fetched],
    equalities: &[Equality],
) -> Result<Vec<Index, Heap>, AllocError>
    ensures { IfOk result (λ indexes. AreIndexes equalities.now tables.now indexes.items) }
{
    let mut indexes = Vec::new(alloc);
    for object in 0..tables.len() {
        indexes.push(Index::new(alloc, object, tables[object].rows(), equalities)?)?;
    }
    Ok(indexes)
}

// Adds the combinations that have the rows of a combination in the objects before this one.
fn extend(
    tables: &[Fetched],
    indexes: &[Index],
    equalities: &[Equality],
    object: usize,
    combination: Combination,
    kept: &mut Vec<Combination, Heap>,
) -> Result<(), Stop>
    requires { MayExtend equalities.now tables.now indexes.now object kept.old.items }
    ensures { let after = kept_after object equalities.now tables.now combination.places in
        Keeps result kept.new.items (all_rows tables.now kept.new.items ≡ all_rows tables.now kept.old.items ++ after) (MOST_KEPT < length kept.old.items + length after) }
{
    if object == tables.len() {
        return add(kept, combination);
    }
    let rows = tables[object].rows();
    let (before, _) = tables.split_at(object);
    for place in indexes[object].find(rows, before, &combination) {
        let extended = combination.with(object, *place);
        match extend(tables, indexes, equalities, object + 1, extended, kept) {
            Ok(()) => {}
            Err(stop) => return Err(stop),
        }
    }
    Ok(())
}

// Adds a combination, unless there are as many as there may be.
fn add(kept: &mut Vec<Combination, Heap>, combination: Combination) -> Result<(), Stop>
    requires room { length kept.old.items ≤ MOST_KEPT }
    ensures { Keeps result kept.new.items (kept.new.items ≡ kept.old.items ++ combination ∷ []) (length kept.old.items ≡ MOST_KEPT) }
{
    if kept.len() == MOST_KEPT {
        return Err(Stop::TooMany);
    }
    match kept.push(combination) {
        Ok(()) => Ok(()),
        Err(_) => Err(Stop::NoMemory),
    }
}

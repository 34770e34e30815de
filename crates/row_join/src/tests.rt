// Joins of rows in memory.
ghost use Rattle.row_join.specs.Joined.{MayJoin};

use super::*;
use eeprom::Heap;
use scql_base::Row;
use std::alloc::AllocError;
use std::test::Fail;

const T_A: Column = Column {
    object: 0,
    place: 0,
};

const T_B: Column = Column {
    object: 0,
    place: 1,
};

const U_B: Column = Column {
    object: 1,
    place: 0,
};

const U_C: Column = Column {
    object: 1,
    place: 1,
};

const V_C: Column = Column {
    object: 2,
    place: 0,
};

const V_D: Column = Column {
    object: 2,
    place: 1,
};

const T_B_IS_U_B: Equality = Equality {
    left: T_B,
    right: U_B,
};

const V_C_IS_U_C: Equality = Equality {
    left: V_C,
    right: U_C,
};

const V_C_IS_V_D: Equality = Equality {
    left: V_C,
    right: V_D,
};

// The rows of two values each.
fn fetched(alloc: Heap, rows: &[(&str, &str)]) -> Result<Fetched, Fail> {
    let mut fetched = Vec::new(alloc);
    for (first, second) in rows {
        let mut row = Row::new();
        row.push(first.as_bytes())?;
        row.push(second.as_bytes())?;
        fetched.push(row)?;
    }
    Ok(Fetched { rows: fetched })
}

// So many rows of no values.
fn empty_rows(alloc: Heap, count: usize) -> Result<Fetched, AllocError> {
    let mut rows = Vec::new(alloc);
    for _ in 0..count {
        rows.push(Row::new())?;
    }
    Ok(Fetched { rows })
}

// The values of columns in each combination, each with a blank behind it.
fn text(
    alloc: Heap,
    tables: &[Fetched],
    selected: &[Column],
    combinations: &[Combination],
) -> Result<Vec<u8, Heap>, Fail> {
    let mut text = Vec::new(alloc);
    for combination in combinations {
        for column in selected {
            text.extend_from_slice(value_at(tables, combination, *column))?;
            text.push(b' ')?;
        }
    }
    Ok(text)
}

// The worked tables: T(A, B), U(B, C) and V(C, D).
fn worked_tables(alloc: Heap) -> Result<Vec<Fetched, Heap>, Fail> {
    let mut tables = Vec::new(alloc);
    tables.push(fetched(alloc, &[("1", "x"), ("2", "y"), ("3", "x")])?)?;
    tables.push(fetched(alloc, &[("x", "p"), ("y", "q")])?)?;
    tables.push(fetched(alloc, &[("q", "7"), ("p", "8"), ("q", "9"), ("r", "r")])?)?;
    Ok(tables)
}

// What a join gives, put in order, and nothing where it is too many.
fn answer(
    alloc: Heap,
    tables: &[Fetched],
    equalities: &[Equality],
    order: &[Column],
    selected: &[Column],
) -> Result<Option<Vec<u8, Heap>>, Fail>
    requires { MayJoin equalities.now tables.now }
{
    match join_rows(alloc, tables, equalities)? {
        Joined::TooMany => Ok(None),
        Joined::Kept { mut combinations } => {
            sort_combinations(tables, order, &mut combinations)?;
            Ok(Some(text(alloc, tables, selected, combinations.as_slice())?))
        }
    }
}

#[test]
fn two_objects(rt: HostRuntime) -> Result<(), Fail> {
    let alloc = rt.alloc();
    let all = worked_tables(alloc)?;
    assert_eq!(rt; all.len(), 3);
    let (two, _) = all.as_slice().split_at(2);
    let linked = answer(alloc, two, &[T_B_IS_U_B], &[U_C, T_A], &[T_A, U_C])?;
    assert_eq!(rt;
        linked.ok_or("too many")?.as_slice(),
        b"1 p 3 p 2 q ".as_slice()
    );
    let unlinked = answer(alloc, two, &[], &[], &[T_A, U_B])?;
    assert_eq!(rt;
        unlinked.ok_or("too many")?.as_slice(),
        b"1 x 1 y 2 x 2 y 3 x 3 y ".as_slice()
    );
    let back = answer(alloc, two, &[], &[U_B], &[U_B, T_A])?;
    assert_eq!(rt;
        back.ok_or("too many")?.as_slice(),
        b"x 1 x 2 x 3 y 1 y 2 y 3 ".as_slice()
    );
    Ok(())
}

#[test]
fn three_objects(rt: HostRuntime) -> Result<(), Fail> {
    let alloc = rt.alloc();
    let all = worked_tables(alloc)?;
    assert_eq!(rt; all.len(), 3);
    let equalities = [T_B_IS_U_B, V_C_IS_U_C];
    let linked = answer(alloc, all.as_slice(), &equalities, &[], &[T_A, V_D])?;
    assert_eq!(rt;
        linked.ok_or("too many")?.as_slice(),
        b"1 8 2 7 2 9 3 8 ".as_slice()
    );
    let own = [V_C_IS_V_D, T_B_IS_U_B];
    let met = answer(alloc, all.as_slice(), &own, &[T_B], &[T_A, V_D])?;
    assert_eq!(rt;
        met.ok_or("too many")?.as_slice(),
        b"1 r 3 r 2 r ".as_slice()
    );
    Ok(())
}

#[test]
fn most_kept(rt: HostRuntime) -> Result<(), Fail> {
    let alloc = rt.alloc();
    for (first, second, kept) in [
        (400, 250, Some(100_000)),
        (400, 251, None),
        (400, 400, None),
    ] {
        let tables = [empty_rows(alloc, first)?, empty_rows(alloc, second)?];
        let given = match join_rows(alloc, &tables, &[])? {
            Joined::Kept { combinations } => Some(combinations.len()),
            Joined::TooMany => None,
        };
        assert_eq!(rt; given, kept, "{first} by {second}");
    }
    Ok(())
}

// Lists of columns and of equalities.
ghost use Rattle.std.specs.Prelude.{◌≡◌, ◌≤◌, ◌<◌, [], ◌∷◌, ◌++◌, length};
ghost use Rattle.query.specs.declared.query.TheConstants.Query.{MOST_COLUMNS, MOST_EQUALITIES};

use crate::Query;
use row_join::{Column, Equality};
use std::marker::Model;

const UNUSED_COLUMN: Column = Column {
    object: 0,
    place: 0,
};

const UNUSED_EQUALITY: Equality = Equality {
    left: UNUSED_COLUMN,
    right: UNUSED_COLUMN,
};

/// A list of at most 15 columns.
#[derive(Drop)]
pub struct Columns {
    // The columns, and behind them such as aren't used.
    held: [Column; Query::MOST_COLUMNS],
    len: usize,
}

impl Model for Columns {
    ghost use Rattle.std.specs.Prelude.{◌≡◌, ◌≤◌, List, length, take};
    ghost use Rattle.row_join.specs.declared.column.Column.{Column};
    ghost use Rattle.query.specs.declared.query.TheConstants.Query.{MOST_COLUMNS};

    ghost Value = { List Column };

    ghost view = { λ l. take l.len l.held };

    ghost invariant = { λ l. (l.len ≤ MOST_COLUMNS) × (length l.held ≡ MOST_COLUMNS) };
}

impl Columns {
    /// No columns.
    pub(crate) fn new() -> Columns
        ensures { result ≡ [] }
    {
        Columns {
            held: [UNUSED_COLUMN; Query::MOST_COLUMNS],
            len: 0,
        }
    }

    /// Adds a column at the end.
    pub(crate) fn push(&mut self, column: Column)
        requires { length self.old < MOST_COLUMNS }
        ensures { self.new ≡ self.old ++ column ∷ [] }
    {
        self.held[self.len] = column;
        self.len += 1;
    }

    /// The columns in their order.
    pub fn as_slice(&self) -> &[Column]
        ensures value { result.now ≡ self.now }
        ensures few { length result.now ≤ MOST_COLUMNS }
    {
        &self.held[..self.len]
    }
}

/// A list of at most 8 equalities.
#[derive(Drop)]
pub struct Equalities {
    // The equalities, and behind them such as aren't used.
    held: [Equality; Query::MOST_EQUALITIES],
    len: usize,
}

impl Model for Equalities {
    ghost use Rattle.std.specs.Prelude.{◌≡◌, ◌≤◌, List, length, take};
    ghost use Rattle.row_join.specs.declared.column.Equality.{Equality};
    ghost use Rattle.query.specs.declared.query.TheConstants.Query.{MOST_EQUALITIES};

    ghost Value = { List Equality };

    ghost view = { λ l. take l.len l.held };

    ghost invariant = { λ l. (l.len ≤ MOST_EQUALITIES) × (length l.held ≡ MOST_EQUALITIES) };
}

impl Equalities {
    /// No equalities.
    pub(crate) fn new() -> Equalities
        ensures { result ≡ [] }
    {
        Equalities {
            held: [UNUSED_EQUALITY; Query::MOST_EQUALITIES],
            len: 0,
        }
    }

    /// Adds an equality at the end.
    pub(crate) fn push(&mut self, equality: Equality)
        requires { length self.old < MOST_EQUALITIES }
        ensures { self.new ≡ self.old ++ equality ∷ [] }
    {
        self.held[self.len] = equality;
        self.len += 1;
    }

    /// The equalities in their order.
    pub fn as_slice(&self) -> &[Equality]
        ensures value { result.now ≡ self.now }
        ensures few { length result.now ≤ MOST_EQUALITIES }
    {
        &self.held[..self.len]
    }
}

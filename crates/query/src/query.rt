// What a query asks for.
use crate::blank::Blank;
use crate::{Columns, Equalities};
use arrayvec::ArrayVec;
use scql_base::{Name, NameList};
use std::marker::Model;

/// An object of a query, and which of its columns are fetched: none for all.
#[derive(Drop)]
pub struct AskedObject {
    pub object: Name,
    pub columns: NameList,
}

/// A query: the rows of two or three objects are joined where the equalities hold and put in order, and of each combination the
/// selected columns are given.
#[derive(Drop)]
pub struct Query {
    pub objects: ArrayVec<AskedObject, { Query::MOST_OBJECTS }, Blank>,
    pub selected: Columns,
    pub equalities: Equalities,
    pub order: Columns,
}

impl Model for Query {
    ghost use Rattle.query.specs.Asked.{Asked};

    ghost Value = { Asked };

    ghost view = { λ q. record { objects = q.objects.items; selected = q.selected; equalities = q.equalities; order = q.order } };
}

impl Query {
    /// How many objects a query may have.
    pub const MOST_OBJECTS: usize = 3;

    /// How many columns may be selected, and how many may give the order.
    pub const MOST_COLUMNS: usize = 15;

    /// How many equalities a query may have.
    pub const MOST_EQUALITIES: usize = 8;
}

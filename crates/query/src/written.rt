// What a line says, before its names are looked up.
use crate::Query;
use crate::blank::Blank;
use arrayvec::ArrayVec;
use scql_base::Name;
use std::marker::Model;

/// A column as a line names it: `left` octets of the line are from its object's name on.
#[derive(Drop)]
pub(crate) struct Named {
    pub(crate) object: Name,
    pub(crate) column: Name,
    pub(crate) left: usize,
}

/// An object that stands in FROM: `left` octets of the line are from its name on.
#[derive(Drop)]
pub(crate) struct Source {
    pub(crate) object: Name,
    pub(crate) left: usize,
}

/// Two columns that are to be equal.
#[derive(Drop)]
pub(crate) struct Pair {
    pub(crate) first: Named,
    pub(crate) second: Named,
}

pub(crate) type NamedColumns = ArrayVec<Named, { Query::MOST_COLUMNS }, Blank>;

pub(crate) type Sources = ArrayVec<Source, { Query::MOST_OBJECTS }, Blank>;

pub(crate) type Pairs = ArrayVec<Pair, { Query::MOST_EQUALITIES }, Blank>;

/// A query as it is written.
#[derive(Drop)]
pub(crate) struct WrittenQuery {
    pub(crate) selected: NamedColumns,
    pub(crate) sources: Sources,
    pub(crate) pairs: Pairs,
    pub(crate) order: NamedColumns,
}

impl Model for WrittenQuery {
    ghost use Rattle.query.specs.Written.{Written};

    ghost Value = { Written };

    ghost view = { λ q. record { selected = q.selected.items; sources = q.sources.items; pairs = q.pairs.items; order = q.order.items } };
}

/// The grammar is met, but a name stands for nothing: `left` octets of the line are from it on.
#[derive(Clone, Copy, Drop)]
pub(crate) struct NameFault {
    pub(crate) left: usize,
}

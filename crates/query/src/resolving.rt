// Looks up what the names of a line stand for, each in the line's order.
ghost use Rattle.std.specs.Prelude.{◌≡◌, ◌≤◌, [], IfOk, IfErr, IfSome, IfNone, Some, None, Ok, Err, length, map};
ghost use Rattle.std.specs.List.{position};
ghost use Rattle.std.specs.Str.{bytes_eq};
ghost use Rattle.query.specs.Resolving as resolving;
ghost use Rattle.query.specs.Resolving.{has_source, in_turn, is_of, repeated, unnamed};
ghost use Rattle.query.specs.declared.query.TheConstants.Query.{MOST_COLUMNS, MOST_EQUALITIES, MOST_OBJECTS};

use crate::blank::Blank;
use crate::written::{NameFault, Named, Pair, Source, WrittenQuery};
use crate::{AskedObject, Columns, Equalities, Query};
use arrayvec::ArrayVec;
use row_join::{Column, Equality};
use scql_base::{Copied, Name, NameList};

type Objects = ArrayVec<AskedObject, { Query::MOST_OBJECTS }, Blank>;

/// What a written query asks for.
#[tactic(auto, using(crate::proofs::InTurn::refilled), unfolding(crate::specs::Resolving::names))]
pub(crate) fn resolve(written: &WrittenQuery) -> Result<Query, NameFault>
    ensures query { IfOk result (λ query. resolving.resolved written.now ≡ Ok (query, query.objects)) }
    ensures fault { IfErr result (λ fault. resolving.resolved written.now ≡ Err fault) }
{
    let mut objects = unnamed(written.sources.as_slice());
    let selected = resolve_columns(written.selected.as_slice(), objects.as_mut_slice())?;
    check_sources(written.sources.as_slice())?;
    let equalities = resolve_pairs(written.pairs.as_slice(), objects.as_mut_slice())?;
    let order = resolve_columns(written.order.as_slice(), objects.as_mut_slice())?;
    Ok(Query {
        objects,
        selected,
        equalities,
        order,
    })
}

// FROM's objects, of which no column is named yet.
fn unnamed(sources: &[Source]) -> Objects
    requires { length sources.now ≤ MOST_OBJECTS }
    ensures { result.items ≡ map resolving.unnamed sources.now }
{
    let mut objects = ArrayVec::new_in(Blank);
    for source in sources {
        objects.push(AskedObject {
            object: source.object.copy(),
            columns: NameList::new(),
        });
    }
    objects
}

// No name may stand in FROM twice.
fn check_sources(sources: &[Source]) -> Result<(), NameFault>
    ensures new { IfOk result (λ _. repeated [] sources.now ≡ None) }
    ensures fault { IfErr result (λ fault. repeated [] sources.now ≡ Some fault) }
{
    for (place, source) in sources.iter().enumerate() {
        if has_source(&sources[..place], &source.object) {
            return Err(NameFault { left: source.left });
        }
    }
    Ok(())
}

fn has_source(sources: &[Source], name: &Name) -> bool
    ensures { result ≡ has_source name.now sources.now }
{
    sources
        .iter()
        .any(|source| source.object.octets() == name.octets())
}

fn resolve_columns(columns: &[Named], objects: &mut [AskedObject]) -> Result<Columns, NameFault>
    requires { length columns.now ≤ MOST_COLUMNS }
    ensures columns { IfOk result (λ found. in_turn resolving.column [] columns.now objects.old ≡ Ok (found, objects.new)) }
    ensures fault { IfErr result (λ fault. in_turn resolving.column [] columns.now objects.old ≡ Err fault) }
    ensures count { length objects.new ≡ length objects.old }
{
    let mut found = Columns::new();
    for column in columns {
        found.push(resolve_column(column, objects)?);
    }
    Ok(found)
}

fn resolve_pairs(pairs: &[Pair], objects: &mut [AskedObject]) -> Result<Equalities, NameFault>
    requires { length pairs.now ≤ MOST_EQUALITIES }
    ensures equalities { IfOk result (λ found. in_turn resolving.equality [] pairs.now objects.old ≡ Ok (found, objects.new)) }
    ensures fault { IfErr result (λ fault. in_turn resolving.equality [] pairs.now objects.old ≡ Err fault) }
    ensures count { length objects.new ≡ length objects.old }
{
    let mut found = Equalities::new();
    for pair in pairs {
        found.push(resolve_pair(pair, objects)?);
    }
    Ok(found)
}

#[tactic(auto, unfolding(crate::specs::Resolving::equality))]
fn resolve_pair(pair: &Pair, objects: &mut [AskedObject]) -> Result<Equality, NameFault>
    ensures equality { IfOk result (λ found. resolving.equality pair.now objects.old ≡ Ok (found, objects.new)) }
    ensures fault { IfErr result (λ fault. resolving.equality pair.now objects.old ≡ Err fault) }
{
    let left = resolve_column(&pair.first, objects)?;
    let right = resolve_column(&pair.second, objects)?;
    Ok(Equality { left, right })
}

// The column that is named, which its object gets as its last one where it is new.
#[tactic(auto, unfolding(crate::specs::Resolving::column))]
fn resolve_column(named: &Named, objects: &mut [AskedObject]) -> Result<Column, NameFault>
    ensures column { IfOk result (λ found. resolving.column named.now objects.old ≡ Ok (found, objects.new)) }
    ensures fault { IfErr result (λ fault. resolving.column named.now objects.old ≡ Err fault) }
{
    let fault = NameFault { left: named.left };
    let object = object_of(objects, &named.object).ok_or(fault)?;
    let place = place_in(&mut objects[object].columns, &named.column).ok_or(fault)?;
    Ok(Column { object, place })
}

fn object_of(objects: &[AskedObject], name: &Name) -> Option<usize>
    ensures { result ≡ position (is_of name.now) objects.now }
{
    objects
        .iter()
        .position(|asked| asked.object.octets() == name.octets())
}

// The place of a column among columns, of which it is the last where it is new.
fn place_in(columns: &mut NameList, column: &Name) -> Option<usize>
    ensures place { IfSome result (λ place. resolving.placed column.now columns.old ≡ Some (place, columns.new)) }
    ensures full { IfNone result (resolving.placed column.now columns.old ≡ None) }
{
    if let Some(place) = place_of(columns, column) {
        return Some(place);
    }
    let place = columns.len();
    columns.push(column.copy()).ok()?;
    Some(place)
}

fn place_of(columns: &NameList, column: &Name) -> Option<usize>
    ensures { result ≡ position (bytes_eq column.now) columns.now }
{
    columns
        .as_slice()
        .iter()
        .position(|name| column.octets() == name.octets())
}

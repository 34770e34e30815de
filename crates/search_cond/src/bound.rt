// Conditions that are bound to columns once, and then tell of each row whether it meets them.
ghost use Rattle.std.specs.Prelude.{◌≡◌, None, Some, [], IfErr, IfOk, position};
ghost use Rattle.std.specs.Str.{bytes_eq};
ghost use Rattle.search_cond.specs.Bound.{Binds, first_unknown, is_met, passes};

use crate::Placed;
use crate::comparing::compares;
use crate::placed::Blank;
use arrayvec::ArrayVec;
use scql_base::{Condition, Conditions, Copied, Name, NameList, Row};
use std::marker::Model;

/// Conditions on the rows of some columns, each at the place of its column.
#[derive(Drop)]
pub struct Bound {
    held: ArrayVec<Placed, { Conditions::MOST }, Blank>,
}

impl Model for Bound {
    ghost use Rattle.std.specs.Prelude.{List};
    ghost use Rattle.search_cond.specs.declared.placed.Placed.{Placed};

    ghost Value = { List Placed };

    ghost view = { λ b. b.held.items };
}

impl Bound {
    /// The conditions.
    pub fn as_slice(&self) -> &[Placed]
        ensures { result.now ≡ self.now }
    {
        self.held.as_slice()
    }

    /// Whether a row meets all conditions.
    pub fn matches(&self, row: &Row) -> bool
        ensures { result ≡ passes row.now self.now }
    {
        meets_each(row, self.held.as_slice())
    }
}

impl Default for Bound {
    ghost is_default = { λ bound. bound ≡ [] };

    /// No conditions, which each row meets.
    fn default() -> Bound {
        Bound {
            held: ArrayVec::new_in(Blank),
        }
    }
}

/// Whether a row meets each of some conditions.
pub fn meets_each(row: &Row, conditions: &[Placed]) -> bool
    ensures { result ≡ passes row.now conditions.now }
{
    conditions.iter().all(|condition| holds_at(row, condition))
}

/// Binds conditions to columns, or answers the first column that isn't among these.
pub fn bind(columns: &NameList, conditions: &Conditions) -> Result<Bound, Name>
    ensures bound { IfOk result (λ bound. Binds bound columns.now conditions.now) }
    ensures known { IfOk result (λ _. first_unknown columns.now conditions.now ≡ None) }
    ensures unknown { IfErr result (λ column. first_unknown columns.now conditions.now ≡ Some column) }
{
    let mut bound = Bound::default();
    bind_into(columns, conditions, &mut bound)?;
    Ok(bound)
}

/// Binds conditions to columns in a place, or answers the first column that isn't among these.
pub fn bind_into(columns: &NameList, conditions: &Conditions, bound: &mut Bound) -> Result<(), Name>
    ensures bound { IfOk result (λ _. Binds bound.new columns.now conditions.now) }
    ensures known { IfOk result (λ _. first_unknown columns.now conditions.now ≡ None) }
    ensures unknown { IfErr result (λ column. first_unknown columns.now conditions.now ≡ Some column) }
{
    bound.held.clear();
    for condition in conditions.as_slice() {
        let Some(place) = place_of(columns, &condition.column) else {
            return Err(condition.column.copy());
        };
        bound.held.push(placed_at(place, condition));
    }
    Ok(())
}

// The first place of a column.
fn place_of(columns: &NameList, column: &Name) -> Option<usize>
    ensures { result ≡ position (bytes_eq column.now) columns.now }
{
    columns
        .as_slice()
        .iter()
        .position(|name| column.octets() == name.octets())
}

fn placed_at(place: usize, condition: &Condition) -> Placed
    ensures { result ≡ record { place = place; comparison = condition.now.comparison; value = condition.now.value } }
{
    Placed {
        place,
        comparison: condition.comparison,
        value: condition.value.copy(),
    }
}

fn holds_at(row: &Row, condition: &Placed) -> bool
    ensures { result ≡ is_met row.now condition.now }
{
    let value = row.get(condition.place).unwrap_or(&[]);
    compares(condition.comparison, value, condition.value.as_slice())
}

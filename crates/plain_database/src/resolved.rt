// A view down to its table.
ghost use Rattle.std.specs.Prelude.{◌≡◌, ◌<◌, ◌≤◌, ◌+◌, ◌∷◌, IfSome, length};
ghost use Rattle.std.specs.List.{list_all};
ghost use Rattle.scql_model.specs.Matching as matching;
ghost use Rattle.scql_model.specs.Resolving as resolving;

use crate::ValidDatabase;
use crate::matching::matches;
use arrayvec::ArrayVec;
use scql_base::{Condition, NameList, ObjectKind, Row};
use std::marker::Model;

/// How deep a view may stand over a table.
const DEEPEST: u8 = 4;

/// A table by its stamp, all its columns, those of them that are shown, and the conditions of each view over it, the outermost first.
#[derive(Drop)]
pub struct Resolved<'a> {
    table: u32,
    all: &'a NameList,
    columns: &'a NameList,
    filters: ArrayVec<&'a [Condition], 4>,
}

impl<'a> Model for Resolved<'a> {
    ghost use Rattle.std.specs.Prelude.{map};
    ghost use Rattle.scql_model.specs.Resolving as resolving;

    ghost Value = { resolving.Resolved };

    ghost view = { λ r. record { table = r.table; all = r.all.now; columns = r.columns.now; filters = map (λ f. f.now) r.filters.items } };
}

impl<'a> Resolved<'a> {
    /// The stamp of the table.
    pub fn table(&self) -> u32
        ensures { result ≡ self.now.table }
    {
        self.table
    }

    /// All columns of the table.
    pub fn all(&self) -> &'a NameList
        ensures { result.now ≡ self.now.all }
    {
        self.all
    }

    /// Whether a row of the table passes the conditions of each view.
    pub fn passes(&self, row: &Row) -> bool
        ensures { result ≡ resolving.passes_filters self.now row.now }
    {
        passes_each(self.filters.as_slice(), self.all, row)
    }

    // A view with these columns and conditions over what is resolved.
    fn narrowed(self, columns: &'a NameList, conditions: &'a [Condition]) -> Resolved<'a>
        requires { length self.filters < 4 }
        ensures { result ≡ record self.entry { columns = columns.now; filters = conditions.now ∷ self.entry.filters } }
    {
        let mut filters = self.filters;
        filters.insert(0, conditions);
        Resolved {
            table: self.table,
            all: self.all,
            columns,
            filters,
        }
    }
}

// Whether a row of these columns meets the conditions of each of some views.
fn passes_each(filters: &[&[Condition]], columns: &NameList, row: &Row) -> bool
    ensures { result ≡ list_all (λ f. matching.matches columns.now f.now row.now) filters.now }
{
    filters
        .iter()
        .all(|conditions| matches(columns, conditions, row))
}

impl<'a> ValidDatabase<'a> {
    /// The table or view of a stamp, resolved.
    #[tactic(auto, unfolding(scql_model::specs::Resolving::resolved_of))]
    pub fn resolved(&self, stamp: u32) -> Option<Resolved<'a>>
        ensures { result ≡ resolving.resolved_of self.now.objects stamp }
    {
        self.resolved_below(DEEPEST + 1, stamp)
    }

    // The table or view of a stamp, resolved, from at most so many objects over one another.
    fn resolved_below(&self, most: u8, stamp: u32) -> Option<Resolved<'a>>
        requires { most ≤ 5 }
        ensures resolved { result ≡ resolving.resolved_below most self.now.objects stamp }
        ensures few { IfSome result (λ r. length r.filters + 1 ≤ most) }
    {
        if most == 0 {
            return None;
        }
        let object = self.object_stamped(stamp)?;
        match &object.kind {
            ObjectKind::Table { columns } => Some(Resolved {
                table: object.stamp,
                all: columns,
                columns,
                filters: ArrayVec::new(),
            }),
            ObjectKind::View {
                base,
                columns,
                conditions,
            } => {
                let base = self.resolved_below(most - 1, *base)?;
                Some(base.narrowed(columns, conditions.as_slice()))
            }
            ObjectKind::Dictionary { .. } => None,
        }
    }
}

// DROP TABLE and DROP VIEW.
ghost use Rattle.std.specs.Prelude.{◌≡◌, not};
ghost use Rattle.scql_model.specs.Defining as defining;
ghost use Rattle.scql_model.specs.Rules as rules;
ghost use Rattle.plain_database.specs.Changes.{edits_decided};

use crate::PlainDatabase;
use crate::change::Change;
use crate::rights::is_owned_by;
use scql_base::{Actor, Copied, Name, Object, ObjectKind, StatusWord};

impl PlainDatabase {
    /// What DROP TABLE changes.
    #[tactic(auto, unfolding(scql_model::specs::Defining::table_dropped))]
    pub(crate) fn table_dropped(&self, actor: Actor, name: &Name) -> Result<Change, StatusWord>
        ensures { edits_decided self.now result ≡ defining.table_dropped self.now actor name.now }
    {
        let Some(object) = self.seen_named(actor, name) else {
            return Err(StatusWord::NOT_FOUND);
        };
        if !is_table(&object.kind) {
            return Err(StatusWord::NOT_FOUND);
        }
        if !is_owned_by(actor, object.owner) {
            return Err(StatusWord::SECURITY_NOT_SATISFIED);
        }
        if self.has_view(object) {
            return Err(StatusWord::CONDITIONS_NOT_SATISFIED);
        }
        Ok(Change::RemoveTable {
            table: object.copy(),
        })
    }

    /// What DROP VIEW changes, which drops dictionaries too.
    #[tactic(auto, unfolding(scql_model::specs::Defining::view_dropped))]
    pub(crate) fn view_dropped(&self, actor: Actor, name: &Name) -> Result<Change, StatusWord>
        ensures { edits_decided self.now result ≡ defining.view_dropped self.now actor name.now }
    {
        let Some(object) = self.seen_named(actor, name) else {
            return Err(StatusWord::NOT_FOUND);
        };
        if is_table(&object.kind) {
            return Err(StatusWord::NOT_FOUND);
        }
        if !is_owned_by(actor, object.owner) {
            return Err(StatusWord::SECURITY_NOT_SATISFIED);
        }
        if self.has_view(object) {
            return Err(StatusWord::CONDITIONS_NOT_SATISFIED);
        }
        Ok(Change::RemoveObject {
            object: object.copy(),
        })
    }

    // Whether a view rests on an object.
    fn has_view(&self, base: &Object) -> bool
        ensures { result ≡ defining.has_view self.now base.now }
    {
        self.objects.iter().any(|view| is_based_on(view, base))
    }
}

fn is_table(kind: &ObjectKind) -> bool
    ensures { result ≡ rules.is_table kind.now }
{
    matches!(kind, ObjectKind::Table { .. })
}

// Whether an object is a view that rests on this one.
fn is_based_on(view: &Object, object: &Object) -> bool
    ensures { result ≡ defining.is_based_on object.now view.now.kind }
{
    match &view.kind {
        ObjectKind::View { base, .. } => *base == object.stamp,
        ObjectKind::Table { .. } | ObjectKind::Dictionary { .. } => false,
    }
}

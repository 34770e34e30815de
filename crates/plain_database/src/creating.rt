// CREATE TABLE, CREATE VIEW and CREATE DICTIONARY.
ghost use Rattle.std.specs.Prelude.{◌≡◌, ◌<◌, ◌≤◌, IfSome, Some, None, option_copied, if◌then◌else◌};
ghost use Rattle.std.specs.List.{list_any};
ghost use Rattle.std.specs.Str.{bytes_eq};
ghost use Rattle.scql_model.specs.Defining as defining;
ghost use Rattle.scql_model.specs.Objects as objects;
ghost use Rattle.scql_model.specs.ReadingCommands as commands;
ghost use Rattle.scql_model.specs.Rules as rules;
ghost use Rattle.plain_database.specs.Changes.{edits_decided};

use crate::change::Change;
use crate::columns::{are_named_among, columns_stored, wanted_of};
use crate::rights::{actor_stamp, is_maker, is_owned_by};
use crate::{PlainDatabase, ValidDatabase};
use scql_base::{Actor, Conditions, Copied, Name, NameList, Object, ObjectKind, StatusWord};

/// How deep a view may stand over a table.
const DEEPEST: u8 = 4;

impl PlainDatabase {
    /// What CREATE TABLE and CREATE DICTIONARY change.
    #[tactic(auto, unfolding(scql_model::specs::Defining::object_created))]
    pub(crate) fn object_created(
        &self,
        actor: Actor,
        name: &Name,
        kind: ObjectKind,
    ) -> Result<Change, StatusWord>
        ensures { edits_decided self.now result ≡ defining.object_created self.now actor name.now kind }
    {
        if !makes_objects(actor) {
            return Err(StatusWord::SECURITY_NOT_SATISFIED);
        }
        self.named_anew(actor, name, kind)
    }

    // A new object is added, whose name no other object has.
    fn named_anew(&self, actor: Actor, name: &Name, kind: ObjectKind) -> Result<Change, StatusWord>
        ensures { edits_decided self.now result ≡ defining.named_anew self.now (defining.new_object self.now actor name.now kind) }
    {
        if self.has_object(name) {
            return Err(StatusWord::ALREADY_EXISTS);
        }
        let object = Object {
            stamp: self.next(),
            name: name.copy(),
            owner: actor_stamp(actor),
            kind,
        };
        Ok(Change::AddObject { object })
    }

    // Whether an object has a name.
    fn has_object(&self, name: &Name) -> bool
        ensures { result ≡ list_any (λ o. bytes_eq name.now o.name) self.now.objects }
    {
        self.objects
            .iter()
            .any(|object| name.octets() == object.name.octets())
    }
}

impl<'a> ValidDatabase<'a> {
    /// What CREATE VIEW changes. An empty list of columns becomes all columns.
    #[tactic(auto, unfolding(scql_model::specs::Defining::view_created))]
    pub(crate) fn view_created(
        &self,
        actor: Actor,
        name: &Name,
        base: &Name,
        columns: &NameList,
        conditions: &Conditions,
    ) -> Result<Change, StatusWord>
        ensures { edits_decided self.now result ≡ defining.view_created self.now actor name.now base.now columns.now conditions.now }
    {
        if !makes_objects(actor) {
            return Err(StatusWord::SECURITY_NOT_SATISFIED);
        }
        let database = self.database();
        let Some(base) = database.seen_named(actor, base) else {
            return Err(StatusWord::NOT_FOUND);
        };
        let Some(all) = columns_stored(&base.kind) else {
            return Err(StatusWord::NOT_FOUND);
        };
        if !is_owned_by(actor, base.owner) {
            return Err(StatusWord::SECURITY_NOT_SATISFIED);
        }
        if !self.may_have_view(base) {
            return Err(StatusWord::CONDITIONS_NOT_SATISFIED);
        }
        if !are_named_among(all, columns, conditions) {
            return Err(StatusWord::NOT_FOUND);
        }
        let kind = ObjectKind::View {
            base: base.stamp,
            columns: wanted_of(all, columns).copy(),
            conditions: conditions.copy(),
        };
        database.named_anew(actor, name, kind)
    }

    // Whether a view may rest on an object: whether that doesn't stand at the greatest depth.
    #[tactic(auto, unfolding(scql_model::specs::Objects::depth_of))]
    fn may_have_view(&self, base: &Object) -> bool
        ensures { result ≡ rules.may_have_view self.now.objects base.now }
    {
        match self.depth_below(DEEPEST + 1, base.stamp) {
            Some(depth) => depth < DEEPEST,
            None => false,
        }
    }

    // How deep the object of a stamp stands over a table, where that is below a number.
    fn depth_below(&self, most: u8, stamp: u32) -> Option<u8>
        ensures depth { result ≡ objects.depth_below most self.now.objects stamp }
        ensures below { IfSome result (λ depth. depth < most) }
    {
        if most == 0 {
            return None;
        }
        match &self.object_stamped(stamp)?.kind {
            ObjectKind::Table { .. } => Some(0),
            ObjectKind::View { base, .. } => {
                let depth = self.depth_below(most - 1, *base)?;
                Some(depth + 1)
            }
            ObjectKind::Dictionary { .. } => None,
        }
    }
}

// Whether an actor makes objects.
fn makes_objects(actor: Actor) -> bool
    ensures { result ≡ defining.makes_objects actor }
{
    match actor {
        Actor::Public => false,
        Actor::User { profile, .. } => is_maker(profile),
    }
}

// The rules of the objects of a valid database.
ghost use Rattle.std.specs.Prelude.{◌≡◌, ◌<◌, Some, IfSome};
ghost use Rattle.std.specs.List.{list_all, list_any};
ghost use Rattle.std.specs.Str.{bytes_eq};
ghost use Rattle.scql_base.specs.declared.records.Object as declared;
ghost use Rattle.scql_model.specs.Objects as objects;
ghost use Rattle.scql_model.specs.Rules as model;
ghost use Rattle.plain_image.specs.Rules as rules;

use crate::searches::object_stamped;
use crate::stamps::do_rise;
use crate::users::is_made_by_maker;
use plain_database::{PlainDatabase, are_named_among};
use scql_base::{Conditions, Name, NameList, Object, ObjectKind};

/// How many views there are at most over a table.
const DEEPEST: u8 = 4;

/// Whether the objects are those of a valid database.
pub(crate) fn are_right_objects(database: &PlainDatabase) -> bool
    ensures { result ≡ rules.are_right_objects database.now.users database.now.objects }
{
    let objects = database.objects();
    do_rise(objects) && have_different_names(objects) && is_each_right(database, objects)
}

// Whether no two objects have one name.
fn have_different_names(objects: &[Object]) -> bool
    ensures { result ≡ model.are_apart_by rules.are_objects_of_one_name objects.now }
{
    let mut rest = objects;
    while let [first, behind @ ..] = rest {
        if is_name_among(&first.name, behind) {
            return false;
        }
        rest = behind;
    }
    true
}

// Whether one of these objects has a name.
fn is_name_among(name: &Name, objects: &[Object]) -> bool
    ensures { result ≡ list_any (λ (o : declared.Object). bytes_eq name.now o.name) objects.now }
{
    objects
        .iter()
        .any(|object| name.octets() == object.name.octets())
}

// Whether the rules of a single object hold of each.
fn is_each_right(database: &PlainDatabase, objects: &[Object]) -> bool
    ensures { result ≡ list_all (rules.is_right_object database.now.users database.now.objects) objects.now }
{
    objects
        .iter()
        .all(|object| is_right_object(database, object))
}

// Whether an object's owner may have made it, and what it rests on is there.
fn is_right_object(database: &PlainDatabase, object: &Object) -> bool
    ensures { result ≡ rules.is_right_object database.now.users database.now.objects object.now }
{
    is_made_by_maker(database, object.owner) && is_founded(database, object)
}

// Whether a table's or a view's columns are different, and what a view rests on is there.
fn is_founded(database: &PlainDatabase, object: &Object) -> bool
    ensures { result ≡ model.is_founded database.now.objects object.now }
{
    match &object.kind {
        ObjectKind::Table { columns } => columns.are_different(),
        ObjectKind::View {
            base,
            columns,
            conditions,
        } => {
            columns.are_different()
                && match object_stamped(database, *base) {
                    Some(base) => rests_on(database, object, columns, conditions, base),
                    None => false,
                }
        }
        ObjectKind::Dictionary { .. } => true,
    }
}

// Whether a view of these columns and conditions may rest on a base. None rests on a dictionary.
fn rests_on(
    database: &PlainDatabase,
    view: &Object,
    columns: &NameList,
    conditions: &Conditions,
    base: &Object,
) -> bool
    requires there { objects.object_stamped database.now.objects base.now.stamp ≡ Some base.now }
    ensures { result ≡ model.rests_on database.now.objects view.now columns.now conditions.now base.now }
{
    match &base.kind {
        ObjectKind::Table { columns: all } | ObjectKind::View { columns: all, .. } => {
            base.stamp < view.stamp
                && base.owner == view.owner
                && may_have_view(database, base)
                && are_named_among(all, columns, conditions)
        }
        ObjectKind::Dictionary { .. } => false,
    }
}

// Whether a view may rest on an object: whether that doesn't stand at the greatest depth.
#[tactic(auto, unfolding(scql_model::specs::Objects::depth_of))]
fn may_have_view(database: &PlainDatabase, base: &Object) -> bool
    ensures { result ≡ model.may_have_view database.now.objects base.now }
{
    match depth_below(database, DEEPEST + 1, base.stamp) {
        Some(depth) => depth < DEEPEST,
        None => false,
    }
}

// How deep the object of a stamp stands over a table, where that is below a number.
fn depth_below(database: &PlainDatabase, most: u8, stamp: u32) -> Option<u8>
    ensures depth { result ≡ objects.depth_below most database.now.objects stamp }
    ensures below { IfSome result (λ depth. depth < most) }
{
    if most == 0 {
        return None;
    }
    match &object_stamped(database, stamp)?.kind {
        ObjectKind::Table { .. } => Some(0),
        ObjectKind::View { base, .. } => {
            let depth = depth_below(database, most - 1, *base)?;
            Some(depth + 1)
        }
        ObjectKind::Dictionary { .. } => None,
    }
}

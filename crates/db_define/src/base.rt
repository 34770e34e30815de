// On what a view rests.
ghost use Rattle.std.specs.Prelude.{◌≡◌, ◌↔◌, IfOk, IfSome, IsSome, IsTrue, MatchResult};
ghost use Rattle.eeprom.specs.Fault.{each_error};
ghost use Rattle.scql_model.specs.Database.{object_stamped};
ghost use Rattle.scql_model.specs.Defining.{is_table_or_view, of_kind, owned_by};
ghost use Rattle.scql_model.specs.Objects.{columns_of};
ghost use Rattle.scql_model.specs.Rights.{seen_named};
ghost use Rattle.record_table.specs.Asking.{Asks, IsStopOf};
ghost use Rattle.record_table.specs.Making.{is_stop_fault};
ghost use Rattle.db_define.specs.Layers as specs;
ghost use Rattle.db_define.specs.Layers.{IsBase, layer_found, layer_under, reaches_table};

use eeprom::{Eeprom, EepromFault};
use object_table::find_stamp_into;
use privilege_table::{find_seen_into, is_owned_by};
use record_store::SideReader;
use record_table::{Stop, refused};
use scql_base::{Actor, Copied, Name, NameList, Object, ObjectKind, StatusWord};

/// How deep a base may stand over its table, so that a view on it isn't too deep.
const DEEPEST_BASE: usize = 3;

/// A table or a view, with what is under it.
#[derive(Drop)]
pub(crate) struct Base {
    pub(crate) stamp: u32,
    pub(crate) columns: NameList,
    pub(crate) layer: Layer,
}

/// A table, a view on the object of a stamp, or what is neither.
#[derive(Clone, Copy)]
pub(crate) enum Layer {
    Table,
    View { base: u32 },
    Other,
}

/// The table or the view of a name that the actor sees and owns, or the first refusal. It isn't inlined, so that the object's place doesn't
/// stand beside the view.
#[inline(never)]
pub(crate) fn find_base<B: Eeprom>(
    reader: &mut SideReader<'_, '_, B>,
    actor: Actor,
    name: Name,
) -> Result<Base, Stop>
    ensures { Asks is_stop_fault (λ db result. MatchResult result (IsBase db actor name) (IsStopOf (owned_by actor (of_kind is_table_or_view (seen_named db actor name))))) reader.old reader.new result }
{
    let mut place = None;
    find_seen_into(reader, actor, name, &mut place)?;
    let Some(found) = &place else {
        return refused(StatusWord::NOT_FOUND);
    };
    let Some(base) = base_of(found) else {
        return refused(StatusWord::NOT_FOUND);
    };
    if !is_owned_by(actor, found.owner) {
        return refused(StatusWord::SECURITY_NOT_SATISFIED);
    }
    Ok(base)
}

/// Whether a view may rest on a layer: a table isn't too deep under it.
pub(crate) fn is_shallow<B: Eeprom>(
    reader: &mut SideReader<'_, '_, B>,
    layer: Layer,
) -> Result<bool, EepromFault>
    ensures { Asks each_error (λ db result. IfOk result (λ shallow. shallow ≡ reaches_table DEEPEST_BASE db.objects layer)) reader.old reader.new result }
{
    let mut reached = layer;
    for _depth in 0..DEEPEST_BASE {
        reached = find_under(reader, reached)?;
    }
    Ok(matches!(reached, Layer::Table))
}

// The layer under a view. All others stay.
fn find_under<B: Eeprom>(
    reader: &mut SideReader<'_, '_, B>,
    layer: Layer,
) -> Result<Layer, EepromFault>
    ensures { Asks each_error (λ db result. IfOk result (λ under. under ≡ layer_under db.objects layer)) reader.old reader.new result }
{
    match layer {
        Layer::View { base } => find_layer(reader, base),
        Layer::Table => Ok(Layer::Table),
        Layer::Other => Ok(Layer::Other),
    }
}

// The object of a stamp, if there is one. It isn't inlined either.
#[inline(never)]
fn find_layer<B: Eeprom>(
    reader: &mut SideReader<'_, '_, B>,
    stamp: u32,
) -> Result<Layer, EepromFault>
    ensures { Asks each_error (λ db result. IfOk result (λ layer. layer ≡ layer_found (object_stamped db.objects stamp))) reader.old reader.new result }
{
    let mut place = None;
    find_stamp_into(reader, stamp, &mut place)?;
    match &place {
        Some(found) => Ok(layer_of(&found.kind)),
        None => Ok(Layer::Other),
    }
}

fn layer_of(kind: &ObjectKind) -> Layer
    ensures { result ≡ specs.layer_of kind.now }
{
    match kind {
        ObjectKind::Table { .. } => Layer::Table,
        ObjectKind::View { base, .. } => Layer::View { base: *base },
        ObjectKind::Dictionary { .. } => Layer::Other,
    }
}

// The object, if a view may rest on one of its kind.
fn base_of(object: &Object) -> Option<Base>
    ensures some { IsSome result ↔ IsTrue (is_table_or_view object.now.kind) }
    ensures stamp { IfSome result (λ base. base.stamp ≡ object.now.stamp) }
    ensures columns { IfSome result (λ base. base.columns ≡ columns_of object.now.kind) }
    ensures layer { IfSome result (λ base. base.layer ≡ specs.layer_of object.now.kind) }
{
    match &object.kind {
        ObjectKind::Table { columns } | ObjectKind::View { columns, .. } => Some(Base {
            stamp: object.stamp,
            columns: columns.copy(),
            layer: layer_of(&object.kind),
        }),
        ObjectKind::Dictionary { .. } => None,
    }
}

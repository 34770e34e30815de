// A table or a view, down to its table.
ghost use Rattle.std.specs.Prelude.{◌≡◌, ◌<◌, true, Some, IfOk, IfSome, IsSome, position};
ghost use Rattle.std.specs.List.{list_all};
ghost use Rattle.std.specs.Str.{bytes_eq};
ghost use Rattle.scql_base.specs.declared.name_list.TheConstants.NameList.{MOST};
ghost use Rattle.scql_model.specs.Database.{Database, are_among, object_stamped};
ghost use Rattle.scql_model.specs.Defining.{is_table_or_view};
ghost use Rattle.scql_model.specs.Objects.{columns_of};
ghost use Rattle.scql_model.specs.Resolving as model;
ghost use Rattle.scql_model.specs.Resolving.{AreKnown, resolved_of};
ghost use Rattle.record_table.specs.Asking.{Holds};
ghost use Rattle.record_table.specs.Reading.{ReadsDatabase};
ghost use Rattle.views.specs.Below.{cells_under};
ghost use Rattle.views.specs.Resolved.{ArePlaces, Reaches, Resolves, StandsFor};

use crate::layer::{descend, pass, reach};
use arrayvec::ArrayVec;
use eeprom::{Eeprom, EepromFault};
use record_store::SideReader;
use scql_base::{Copied, Name, NameList, Object, ObjectKind};
use search_cond::Bound;

/// How many views may stand over one another.
pub const DEEPEST: usize = 4;

/// Places of columns.
pub type Places = ArrayVec<u8, { NameList::MOST }>;

/// A table or a view, down to its table.
#[derive(Drop)]
pub struct Resolved {
    /// The stamp of the table.
    pub table: u32,
    /// All columns of the table.
    pub all: NameList,
    /// The columns that are shown.
    pub columns: NameList,
    /// The place of each shown column among all.
    pub places: Places,
    /// The conditions of each view over the table, the outermost first. They are bound to all columns.
    pub filters: ArrayVec<Bound, { DEEPEST }>,
}

impl Resolved {
    // Shows nothing.
    fn clear(&mut self) {
        self.table = 0;
        self.all = NameList::new();
        self.columns = NameList::new();
        self.places.clear();
        self.filters.clear();
    }
}

impl Default for Resolved {
    /// Nothing that is shown.
    fn default() -> Resolved {
        Resolved {
            table: 0,
            all: NameList::new(),
            columns: NameList::new(),
            places: ArrayVec::new(),
            filters: ArrayVec::new(),
        }
    }
}

/// Finds the table on which a table or a view rests, and how its rows come from those of the table, in a place.
pub fn resolve_into<B: Eeprom>(
    reader: &mut SideReader<'_, '_, B>,
    object: &Object,
    resolved: &mut Resolved,
) -> Result<(), EepromFault>
    ensures resolved { (db : Database) → Holds reader.old db
        → object_stamped db.objects object.now.stamp ≡ Some object.now → is_table_or_view object.now.kind ≡ true → IfOk result (λ _. Resolves db.objects object.now.stamp resolved.new) }
    ensures reads { ReadsDatabase (λ db. cells_under db.objects object.now.kind) reader.old reader.new result }
{
    if rest(reader, object, resolved)? && show(&object.kind, resolved) {
        return Ok(());
    }
    resolved.clear();
    Ok(())
}

// Finds the table on which an object rests, under the conditions of the views between.
fn rest<B: Eeprom>(
    reader: &mut SideReader<'_, '_, B>,
    object: &Object,
    resolved: &mut Resolved,
) -> Result<bool, EepromFault>
    ensures reached { (db : Database) (r : model.Resolved) → Holds reader.old db → object_stamped db.objects object.now.stamp ≡ Some object.now → resolved_of db.objects object.now.stamp ≡ Some r
        → list_all (AreKnown r.all) r.filters ≡ true → IfOk result (λ there. (there ≡ true) × Reaches resolved.new r) }
    ensures reads { ReadsDatabase (λ db. cells_under db.objects object.now.kind) reader.old reader.new result }
{
    match &object.kind {
        ObjectKind::Table { columns } => {
            reach(object.stamp, columns, resolved);
            Ok(true)
        }
        ObjectKind::View {
            base,
            conditions,
            ..
        } => {
            if !descend(reader, *base, DEEPEST - 1, resolved)? {
                return Ok(false);
            }
            Ok(pass(conditions, resolved))
        }
        ObjectKind::Dictionary { .. } => Ok(false),
    }
}

// What an object shows of the table that was reached. False where a name isn't a column of the table, as none is in a valid database.
fn show(kind: &ObjectKind, resolved: &mut Resolved) -> bool
    ensures stands { (r : model.Resolved) → Reaches resolved.old r → r.columns ≡ columns_of kind.now → result ≡ true → StandsFor resolved.new r }
    ensures there { is_table_or_view kind.now ≡ true → are_among (columns_of kind.now) resolved.old.all ≡ true → result ≡ true }
{
    let Some(columns) = shown_columns(kind) else {
        return false;
    };
    let Some(places) = places_of(&resolved.all, &columns) else {
        return false;
    };
    resolved.columns = columns;
    resolved.places = places;
    true
}

// The columns that a table or a view has.
fn shown_columns(kind: &ObjectKind) -> Option<NameList>
    ensures columns { IfSome result (λ columns. columns ≡ columns_of kind.now) }
    ensures there { is_table_or_view kind.now ≡ true → IsSome result }
{
    match kind {
        ObjectKind::Table { columns } | ObjectKind::View { columns, .. } => Some(columns.copy()),
        ObjectKind::Dictionary { .. } => None,
    }
}

/// The place of each column among all columns of a table. None where one isn't among them.
pub fn places_of(all: &NameList, columns: &NameList) -> Option<Places>
    ensures places { IfSome result (λ places. ArePlaces places.items all.now columns.now) }
    ensures there { are_among columns.now all.now ≡ true → IsSome result }
{
    let mut places = ArrayVec::new();
    for column in columns.as_slice() {
        places.push(place_of(all, column)? as u8);
    }
    Some(places)
}

// The first place of a column.
fn place_of(all: &NameList, column: &Name) -> Option<usize>
    ensures place { result ≡ position (bytes_eq column.now) all.now }
    ensures within { IfSome result (λ place. place < MOST) }
{
    all.as_slice()
        .iter()
        .position(|name| column.octets() == name.octets())
}

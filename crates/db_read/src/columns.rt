// The columns of an object.
ghost use Rattle.std.specs.Prelude.{◌≡◌};
ghost use Rattle.scql_model.specs.Objects as objects;

use scql_base::{Copied, NameList, ObjectKind};

/// The columns of a table, a view or a dictionary.
pub(crate) fn columns_of(kind: &ObjectKind) -> NameList
    ensures { result ≡ objects.columns_of kind.now }
{
    match kind {
        ObjectKind::Table { columns } | ObjectKind::View { columns, .. } => columns.copy(),
        ObjectKind::Dictionary { subject } => dictionaries::columns_of(*subject),
    }
}

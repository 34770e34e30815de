// Whether two databases are the same.
ghost use Rattle.std.specs.Prelude.{◌≡◌};
ghost use Rattle.std.specs.Bool.{Decides};

use plain_database::PlainDatabase;
use scql_base::{Condition, Grant, Name, Object, ObjectKind, Row, RowRecord, User};

/// Whether two databases are the same.
pub(crate) fn is_same(database: &PlainDatabase, other: &PlainDatabase) -> bool
    ensures { Decides result (database.now ≡ other.now) }
{
    database.cells() == other.cells()
        && database.limit() == other.limit()
        && database.next() == other.next()
        && are_same(database.users(), other.users())
        && are_same(database.objects(), other.objects())
        && are_same(database.grants(), other.grants())
        && are_same(database.rows(), other.rows())
}

// What can be compared with another one.
trait Same {
    // Whether it is the same as another one.
    fn is_same(&self, other: &Self) -> bool
        ensures { Decides result (self.now ≡ other.now) };
}

impl Same for Name {
    fn is_same(&self, other: &Name) -> bool {
        self.octets() == other.octets()
    }
}

impl Same for Condition {
    fn is_same(&self, other: &Condition) -> bool {
        self.column.is_same(&other.column)
            && self.comparison == other.comparison
            && self.value.as_slice() == other.value.as_slice()
    }
}

impl Same for User {
    fn is_same(&self, other: &User) -> bool {
        self.stamp == other.stamp
            && self.name.is_same(&other.name)
            && self.profile == other.profile
            && self.owner == other.owner
            && self.secret.as_slice() == other.secret.as_slice()
            && self.tries == other.tries
    }
}

impl Same for ObjectKind {
    fn is_same(&self, other: &ObjectKind) -> bool {
        match (self, other) {
            (ObjectKind::Table { columns }, ObjectKind::Table { columns: others }) => {
                are_same(columns.as_slice(), others.as_slice())
            }
            (
                ObjectKind::View {
                    base,
                    columns,
                    conditions,
                },
                ObjectKind::View {
                    base: other_base,
                    columns: other_columns,
                    conditions: other_conditions,
                },
            ) => {
                base == other_base
                    && are_same(columns.as_slice(), other_columns.as_slice())
                    && are_same(conditions.as_slice(), other_conditions.as_slice())
            }
            (ObjectKind::Dictionary { subject }, ObjectKind::Dictionary { subject: other }) => {
                subject == other
            }
            _ => false,
        }
    }
}

impl Same for Object {
    fn is_same(&self, other: &Object) -> bool {
        self.stamp == other.stamp
            && self.name.is_same(&other.name)
            && self.owner == other.owner
            && self.kind.is_same(&other.kind)
    }
}

impl Same for Grant {
    fn is_same(&self, other: &Grant) -> bool {
        self.stamp == other.stamp
            && self.object == other.object
            && self.grantee == other.grantee
            && self.privileges == other.privileges
    }
}

impl Same for Row {
    fn is_same(&self, other: &Row) -> bool {
        self.octets() == other.octets()
    }
}

impl Same for RowRecord {
    fn is_same(&self, other: &RowRecord) -> bool {
        self.stamp == other.stamp && self.table == other.table && self.row.is_same(&other.row)
    }
}

// Whether two lists have the same elements in the same order.
fn are_same<T: Same>(elements: &[T], others: &[T]) -> bool
    ensures { Decides result (elements.now ≡ others.now) }
{
    if elements.len() != others.len() {
        return false;
    }
    for (place, element) in elements.iter().enumerate() {
        if !element.is_same(&others[place]) {
            return false;
        }
    }
    true
}

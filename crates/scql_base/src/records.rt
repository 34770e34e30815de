// The records of a database, of each kind. Stamps number users, objects, grants and rows in the order in which they were made;
// an owner, a base, an object and a grantee are stamps of others.
use crate::{Conditions, Copied, Name, NameList, Octets, Privileges, Profile, Row, Subject};

/// A user. Without a secret there are always three tries.
#[derive(Drop)]
pub struct User {
    pub stamp: u32,
    pub name: Name,
    pub profile: Profile,
    /// The user who made this one.
    pub owner: u32,
    pub secret: Octets<8>,
    /// How often a secret may still be presented, 0 to 3.
    pub tries: u8,
}

impl User {
    /// The first octet of a user's record.
    pub const MARK: u8 = 0x01;

    /// The octets of the shortest secret that isn't empty.
    pub const SHORTEST_SECRET: usize = 4;

    /// The octets of the longest secret.
    pub const LONGEST_SECRET: usize = 8;

    /// How often a secret may be presented after one that was right.
    pub const ALL_TRIES: u8 = 3;
}

impl Copied for User {
    fn copy(&self) -> User {
        User {
            stamp: self.stamp,
            name: self.name.copy(),
            profile: self.profile,
            owner: self.owner,
            secret: self.secret.copy(),
            tries: self.tries,
        }
    }
}

/// What an object is.
#[derive(Drop)]
pub enum ObjectKind {
    Table {
        columns: NameList,
    },
    /// Some columns of a base, and those of its rows that meet the conditions.
    View {
        base: u32,
        columns: NameList,
        conditions: Conditions,
    },
    Dictionary {
        subject: Subject,
    },
}

impl Copied for ObjectKind {
    fn copy(&self) -> ObjectKind {
        match self {
            ObjectKind::Table { columns } => ObjectKind::Table {
                columns: columns.copy(),
            },
            ObjectKind::View {
                base,
                columns,
                conditions,
            } => ObjectKind::View {
                base: *base,
                columns: columns.copy(),
                conditions: conditions.copy(),
            },
            ObjectKind::Dictionary { subject } => ObjectKind::Dictionary { subject: *subject },
        }
    }
}

/// A table, a view or a dictionary.
#[derive(Drop)]
pub struct Object {
    pub stamp: u32,
    pub name: Name,
    pub owner: u32,
    pub kind: ObjectKind,
}

impl Object {
    /// The first octets of the records of tables, views and dictionaries.
    pub const TABLE_MARK: u8 = 0x02;

    pub const VIEW_MARK: u8 = 0x03;

    pub const DICTIONARY_MARK: u8 = 0x04;

    /// The octets of the longest record of an object.
    pub const LONGEST: usize = 512;
}

impl Copied for Object {
    fn copy(&self) -> Object {
        Object {
            stamp: self.stamp,
            name: self.name.copy(),
            owner: self.owner,
            kind: self.kind.copy(),
        }
    }
}

/// What a user may do with an object.
#[derive(Clone, Copy)]
pub struct Grant {
    pub stamp: u32,
    pub object: u32,
    /// The stamp of a user, or 0 for PUBLIC.
    pub grantee: u32,
    pub privileges: Privileges,
}

impl Grant {
    /// The first octet of a grant's record.
    pub const MARK: u8 = 0x05;
}

impl Copied for Grant {
    fn copy(&self) -> Grant {
        *self
    }
}

/// A row of a table.
#[derive(Drop)]
pub struct RowRecord {
    pub stamp: u32,
    pub table: u32,
    pub row: Row,
}

impl RowRecord {
    /// The first octet of a row's record.
    pub const MARK: u8 = 0x06;

    /// The octets of the longest record of a row: its mark, two stamps and the row.
    pub const LONGEST: usize = 9 + Row::LARGEST;
}

impl Copied for RowRecord {
    fn copy(&self) -> RowRecord {
        RowRecord {
            stamp: self.stamp,
            table: self.table,
            row: self.row.copy(),
        }
    }
}

// Commands: the operations of SCQL and of the card, each with its fields (ISO/IEC 7816-7).
use crate::{Conditions, Name, NameList, Octets, PackedChanges, Privileges, Profile, Row, Subject};

/// What a command asks for. An empty list of columns means all columns of an object.
#[derive(Drop)]
pub enum Operation {
    CreateTable {
        name: Name,
        columns: NameList,
    },
    CreateView {
        name: Name,
        base: Name,
        columns: NameList,
        conditions: Conditions,
    },
    CreateDictionary {
        name: Name,
        subject: Subject,
    },
    DropTable {
        name: Name,
    },
    /// Drops a view or a dictionary.
    DropView {
        name: Name,
    },
    Grant {
        privileges: Privileges,
        object: Name,
        grantee: Name,
    },
    Revoke {
        privileges: Privileges,
        object: Name,
        grantee: Name,
    },
    DeclareCursor {
        object: Name,
        columns: NameList,
        conditions: Conditions,
    },
    OpenCursor,
    Next,
    Fetch,
    FetchNext,
    Insert {
        table: Name,
        row: Row,
    },
    Update {
        changes: PackedChanges,
    },
    Delete,
    Begin,
    Commit,
    Rollback,
    PresentUser {
        name: Name,
    },
    CreateUser {
        name: Name,
        profile: Profile,
        secret: Octets<8>,
    },
    DeleteUser {
        name: Name,
    },
    Verify {
        secret: Octets<255>,
    },
    /// Opens the channel of this number, 1 to 3, or the least one that is closed where it is 0.
    OpenChannel {
        number: u8,
    },
    /// Closes the channel of this number, 1 to 3, or the command's own where it is 0.
    CloseChannel {
        number: u8,
    },
    /// Asks for what is left of an answer.
    GetResponse,
}

/// Which operation a command asks for, before its data field is read.
#[derive(Clone, Copy, PartialEq, Eq, Debug)]
pub enum OperationKind {
    CreateTable,
    CreateView,
    CreateDictionary,
    DropTable,
    DropView,
    Grant,
    Revoke,
    DeclareCursor,
    OpenCursor,
    Next,
    Fetch,
    FetchNext,
    Insert,
    Update,
    Delete,
    Begin,
    Commit,
    Rollback,
    PresentUser,
    CreateUser,
    DeleteUser,
    Verify,
    OpenChannel { number: u8 },
    CloseChannel { number: u8 },
    GetResponse,
}

/// What a command of an operation has behind P2: no data field (case 1 or 2), a data field (case 3 or 4), or Le alone (case 2).
#[derive(Clone, Copy, PartialEq, Eq, Debug)]
pub enum Takes {
    Nothing,
    DataField,
    LeAlone,
}

/// A line of the table of operations: INS, P1 and P2, the operation that they ask for, and what it takes.
#[derive(Clone, Copy, PartialEq, Eq, Debug)]
pub struct Line {
    pub ins: u8,
    pub p1: u8,
    pub p2: u8,
    pub kind: OperationKind,
    pub takes: Takes,
}

/// A command on a logical channel, 0 to 3. Le is the greatest number of octets wanted, 1 to 256.
#[derive(Drop)]
pub struct Command {
    pub channel: u8,
    pub operation: Operation,
    pub le: Option<u16>,
}

impl Command {
    /// The greatest number of a channel.
    pub const LAST_CHANNEL: u8 = 3;

    /// The octets of the longest data field of one command.
    pub const LONGEST_DATA: usize = 255;

    /// How many parts of a command may come before its last one.
    pub const MOST_PARTS: usize = 4;

    /// The octets of the longest data field that comes in parts.
    pub const LONGEST_IN_PARTS: usize = (Command::MOST_PARTS + 1) * Command::LONGEST_DATA;

    /// The greatest Le, which is 00 in one octet.
    pub const LARGEST_LE: u16 = 256;
}

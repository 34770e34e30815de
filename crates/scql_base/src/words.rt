// Small words that commands, records and answers share.

/// How a column's value is compared with a condition's. Values compare octet by octet, a prefix first.
#[derive(Clone, Copy, PartialEq, Eq, Debug)]
pub enum Comparison {
    Equal,
    Less,
    Greater,
    AtMost,
    AtLeast,
    NotEqual,
}

impl Comparison {
    /// The code of equality, in records and commands: `=`.
    pub const EQUAL: u8 = b'=';

    /// The code of less: `<`.
    pub const LESS: u8 = b'<';

    /// The code of greater: `>`.
    pub const GREATER: u8 = b'>';

    /// The code of at most: `L`.
    pub const AT_MOST: u8 = b'L';

    /// The code of at least: `G`.
    pub const AT_LEAST: u8 = b'G';

    /// The code of inequality: `#`.
    pub const NOT_EQUAL: u8 = b'#';
}

/// What a user may do: the database's owner, the owner of objects, or a basic user.
#[derive(Clone, Copy, PartialEq, Eq, Debug)]
pub enum Profile {
    DbO,
    Dboo,
    Dbbu,
}

impl Profile {
    /// The code of the database's owner, in records, commands and dictionaries.
    pub const DB_O: u8 = 0x01;

    /// The code of an owner of objects.
    pub const DBOO: u8 = 0x02;

    /// The code of a basic user.
    pub const DBBU: u8 = 0x03;
}

/// What a dictionary tells of.
#[derive(Clone, Copy, PartialEq, Eq, Debug)]
pub enum Subject {
    Objects,
    Users,
    Grants,
}

impl Subject {
    /// The letter of objects, in records, commands and dictionaries: `O`.
    pub const OBJECTS: u8 = b'O';

    /// The letter of users: `U`.
    pub const USERS: u8 = b'U';

    /// The letter of grants: `P`.
    pub const GRANTS: u8 = b'P';
}

/// Who acts on a channel: the public, or a proved user, with the stamp of its record and its profile.
#[derive(Clone, Copy, PartialEq, Eq, Debug)]
pub enum Actor {
    Public,
    User { stamp: u32, profile: Profile },
}

/// The two octets that end each answer, SW1 first, as one number.
#[derive(Clone, Copy, PartialEq, Eq, Debug)]
pub struct StatusWord {
    pub word: u16,
}

impl StatusWord {
    pub const DONE: StatusWord = StatusWord { word: 0x9000 };

    /// A cursor has come to its end.
    pub const END_REACHED: StatusWord = StatusWord { word: 0x6282 };

    /// The EEPROM failed.
    pub const MEMORY_FAILURE: StatusWord = StatusWord { word: 0x6581 };

    pub const WRONG_LENGTH: StatusWord = StatusWord { word: 0x6700 };

    pub const CHANNEL_NOT_SUPPORTED: StatusWord = StatusWord { word: 0x6881 };

    pub const SECURE_MESSAGING_NOT_SUPPORTED: StatusWord = StatusWord { word: 0x6882 };

    pub const CHAINING_NOT_SUPPORTED: StatusWord = StatusWord { word: 0x6884 };

    pub const SECURITY_NOT_SATISFIED: StatusWord = StatusWord { word: 0x6982 };

    /// No tries are left for a secret.
    pub const AUTHENTICATION_BLOCKED: StatusWord = StatusWord { word: 0x6983 };

    pub const CONDITIONS_NOT_SATISFIED: StatusWord = StatusWord { word: 0x6985 };

    pub const WRONG_DATA: StatusWord = StatusWord { word: 0x6A80 };

    pub const FUNCTION_NOT_SUPPORTED: StatusWord = StatusWord { word: 0x6A81 };

    /// The row at a cursor's place is no longer among the rows of the cursor.
    pub const RECORD_NOT_FOUND: StatusWord = StatusWord { word: 0x6A83 };

    pub const NO_SPACE: StatusWord = StatusWord { word: 0x6A84 };

    pub const WRONG_PARAMETERS: StatusWord = StatusWord { word: 0x6A86 };

    pub const NOT_FOUND: StatusWord = StatusWord { word: 0x6A88 };

    pub const ALREADY_EXISTS: StatusWord = StatusWord { word: 0x6A89 };

    pub const INSTRUCTION_NOT_SUPPORTED: StatusWord = StatusWord { word: 0x6D00 };

    pub const CLASS_NOT_SUPPORTED: StatusWord = StatusWord { word: 0x6E00 };
}

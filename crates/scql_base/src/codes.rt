// The codes of profiles, subjects and comparisons, and what they stand for.
ghost use Rattle.std.specs.Prelude.{◌≡◌};
ghost use Rattle.scql_base.specs.Codes as codes;

use crate::words::{Comparison, Profile, Subject};

impl Profile {
    pub fn code(self) -> u8
        ensures { result ≡ codes.profile_code self }
    {
        match self {
            Profile::DbO => Profile::DB_O,
            Profile::Dboo => Profile::DBOO,
            Profile::Dbbu => Profile::DBBU,
        }
    }

    /// The profile with this code, if there is one.
    pub fn of(code: u8) -> Option<Profile>
        ensures { result ≡ codes.profile_of code }
    {
        match code {
            Profile::DB_O => Some(Profile::DbO),
            Profile::DBOO => Some(Profile::Dboo),
            Profile::DBBU => Some(Profile::Dbbu),
            _ => None,
        }
    }
}

impl Subject {
    pub fn code(self) -> u8
        ensures { result ≡ codes.subject_code self }
    {
        match self {
            Subject::Objects => Subject::OBJECTS,
            Subject::Users => Subject::USERS,
            Subject::Grants => Subject::GRANTS,
        }
    }

    /// The subject with this letter, if there is one.
    pub fn of(code: u8) -> Option<Subject>
        ensures { result ≡ codes.subject_of code }
    {
        match code {
            Subject::OBJECTS => Some(Subject::Objects),
            Subject::USERS => Some(Subject::Users),
            Subject::GRANTS => Some(Subject::Grants),
            _ => None,
        }
    }
}

impl Comparison {
    pub fn code(self) -> u8
        ensures { result ≡ codes.comparison_code self }
    {
        match self {
            Comparison::Equal => Comparison::EQUAL,
            Comparison::Less => Comparison::LESS,
            Comparison::Greater => Comparison::GREATER,
            Comparison::AtMost => Comparison::AT_MOST,
            Comparison::AtLeast => Comparison::AT_LEAST,
            Comparison::NotEqual => Comparison::NOT_EQUAL,
        }
    }

    /// The comparison with this code, if there is one.
    pub fn of(code: u8) -> Option<Comparison>
        ensures { result ≡ codes.comparison_of code }
    {
        match code {
            Comparison::EQUAL => Some(Comparison::Equal),
            Comparison::LESS => Some(Comparison::Less),
            Comparison::GREATER => Some(Comparison::Greater),
            Comparison::AT_MOST => Some(Comparison::AtMost),
            Comparison::AT_LEAST => Some(Comparison::AtLeast),
            Comparison::NOT_EQUAL => Some(Comparison::NotEqual),
            _ => None,
        }
    }
}

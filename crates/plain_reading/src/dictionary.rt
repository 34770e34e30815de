// The rows that a cursor shows of a dictionary.
ghost use Rattle.std.specs.Prelude.{◌≡◌, ◌&&◌, filter, length, map, option_copied, option_map};
ghost use Rattle.std.specs.List.{find};
ghost use Rattle.scql_model.specs.Dictionaries.{rows_told, tells_of};
ghost use Rattle.scql_model.specs.Matching as matching;
ghost use Rattle.scql_model.specs.Objects as objects;
ghost use Rattle.plain_database.specs.Sought.{row_shown};
ghost use Rattle.plain_reading.specs.Found.{AreColumnsOf, sought_among};

use crate::texts::dictionary_columns;
use crate::told::Told;
use plain_database::{Rising, ShownRow, Sought, ValidDatabase, cut_to, matches};
use scql_base::{Cursor, NameList, Row, Subject};

/// The stamp of OWNER.
const OWNER: u32 = 1;

/// The row that is sought among those that a cursor shows of a dictionary of this owner.
pub(crate) fn find_told(
    database: &ValidDatabase<'_>,
    owner: u32,
    subject: Subject,
    cursor: &Cursor,
    sought: Sought,
) -> Option<ShownRow>
    requires { AreColumnsOf (objects.dictionary_columns subject) cursor.now.columns }
    ensures { option_map row_shown result ≡ sought_among cursor.now sought (record { columns = objects.dictionary_columns subject; rows = rows_told database.now owner subject }) }
{
    let columns = dictionary_columns(subject);
    let records = database.database();
    let dictionary = Dictionary {
        database,
        owner,
        columns: &columns,
    };
    match subject {
        Subject::Objects => {
            let objects = Rising {
                records: records.objects(),
            };
            dictionary.find_shown(&objects, cursor, sought)
        }
        Subject::Users => {
            let users = Rising {
                records: records.users(),
            };
            dictionary.find_shown(&users, cursor, sought)
        }
        Subject::Grants => {
            let grants = Rising {
                records: records.grants(),
            };
            dictionary.find_shown(&grants, cursor, sought)
        }
    }
}

// A dictionary of a database: whose it is, and its columns.
#[derive(Drop)]
struct Dictionary<'a> {
    database: &'a ValidDatabase<'a>,
    owner: u32,
    columns: &'a NameList,
}

impl<'a> Dictionary<'a> {
    // The row that is sought, cut to a cursor's columns, of records of which the dictionary may tell.
    fn find_shown<R: Told>(
        &self,
        records: &Rising<'_, R>,
        cursor: &Cursor,
        sought: Sought,
    ) -> Option<ShownRow>
        requires wanted { AreColumnsOf self.now.columns.now cursor.now.columns }
        requires many { (entry : R) → length (R.told self.now.database.now entry).values ≡ length self.now.columns.now }
        ensures { option_map row_shown result ≡ sought_among cursor.now sought
            (record { columns = self.now.columns.now; rows = map (R.told self.now.database.now) (filter (λ r. tells_of self.now.owner (R.owned_by self.now.database.now r)) records.now.records.now) }) }
    {
        let found = self.find_among(sought.admitted(records), cursor)?;
        let values = found.values(self.database);
        prove!(values.len() <= Row::MOST);
        Some(ShownRow {
            stamp: found.stamp(),
            values: cut_to(self.columns, &cursor.columns, &values),
        })
    }

    // The first record of which the dictionary tells, and whose row meets a cursor's conditions.
    fn find_among<'b, R: Told>(&self, records: &'b [R], cursor: &Cursor) -> Option<&'b R>
        ensures { option_copied result ≡ find (λ r. tells_of self.now.owner (R.owned_by self.now.database.now r)
            && matching.matches self.now.columns.now cursor.now.conditions (R.told self.now.database.now r).values) records.now }
    {
        records.iter().find(|entry| self.shows(*entry, cursor))
    }

    // Whether it tells of a record, and the row meets a cursor's conditions.
    fn shows<R: Told>(&self, entry: &R, cursor: &Cursor) -> bool
        ensures { result ≡ (tells_of self.now.owner (R.owned_by self.now.database.now entry.now)
            && matching.matches self.now.columns.now cursor.now.conditions (R.told self.now.database.now entry.now).values) }
    {
        self.tells_of(entry)
            && matches(
                self.columns,
                cursor.conditions.as_slice(),
                &entry.values(self.database),
            )
    }

    // Whether it tells of a record.
    fn tells_of<R: Told>(&self, entry: &R) -> bool
        ensures { result ≡ tells_of self.now.owner (R.owned_by self.now.database.now entry.now) }
    {
        self.owner == OWNER || entry.owner(self.database) == self.owner
    }
}

// The texts of help: all statements, the grammar of one, and the status words.

/// All statements.
pub(crate) const STATEMENTS: &[u8] =
    b"CREATE TABLE t (A, B)                 INSERT INTO t VALUES ('x', X'00FF')
  CREATE VIEW v AS SELECT A FROM t      SELECT A, B FROM t WHERE A = 'x' AND B < 'y'     (or *)
  CREATE DICTIONARY d ON O              UPDATE t SET A = 'x' WHERE B = 'y'
  CREATE USER u DBBU 'secret'           DELETE FROM t WHERE A = 'x'
  DROP TABLE t   DROP VIEW v            GRANT SELECT, INSERT ON t TO u    (or PUBLIC)
  DELETE USER u                         REVOKE SELECT ON t FROM u
  PRESENT u      VERIFY 'secret'        BEGIN   COMMIT   ROLLBACK
  OPEN CHANNEL 1   CHANNEL 1   CLOSE CHANNEL 1   RESET
  Words in capital letters. Names: 1 to 8 of A-Z 0-9 _, a letter first. Values: '...' or X'...', up to 200 octets.
  Your tables: CREATE DICTIONARY MINE ON O, once; then SELECT NAME, KIND, COLS FROM MINE. Notes begin with #.
  #help GRANT, and other first words, tells the grammar; #words tells what a status word means.";

/// How tables are listed.
pub(crate) const TABLES: &[u8] =
    b"CREATE DICTIONARY MINE ON O, once; then SELECT NAME, KIND, COLS FROM MINE lists your tables";

/// What each status word of a refusal means.
pub(crate) const WORDS: &[u8] =
    b"63CX  wrong secret, X tries are left        6A80  values or columns don't fit
  6581  the EEPROM failed                     6A81  channels 1 to 3 are open
  6881  the channel isn't open                6A84  no room
  6982  not allowed                           6A88  not found, or not for this user
  6983  the user is blocked                   6A89  the name is taken
  6985  not now, or not of this object";

/// The grammar of the statements that begin with a word.
pub(crate) fn grammar_of(word: &[u8]) -> Option<&'static [u8]> {
    match word {
        b"CREATE" => Some(
            b"CREATE TABLE name (name {, name})
  CREATE VIEW name AS SELECT (* | name {, name}) FROM name [WHERE name op value {AND name op value}]
  CREATE DICTIONARY name ON (O | U | P)         of objects, users or grants
  CREATE USER name (DBOO | DBBU) [secret]       who may own objects, or may not; a secret has 4 to 8 octets",
        ),
        b"DROP" => Some(
            b"DROP TABLE name
  DROP VIEW name                                a view or a dictionary",
        ),
        b"DELETE" => Some(
            b"DELETE FROM name [WHERE name op value {AND name op value}]
  DELETE USER name",
        ),
        b"GRANT" => Some(
            b"GRANT priv {, priv} ON name TO name            priv: SELECT, INSERT, UPDATE or DELETE; to a user, or PUBLIC",
        ),
        b"REVOKE" => Some(
            b"REVOKE priv {, priv} ON name FROM name         priv: SELECT, INSERT, UPDATE or DELETE",
        ),
        b"INSERT" => Some(b"INSERT INTO name VALUES (value {, value})"),
        b"SELECT" => Some(
            b"SELECT (* | name {, name}) FROM name [WHERE name op value {AND name op value}]
                                                op: = < > <= >= or <>",
        ),
        b"UPDATE" => Some(
            b"UPDATE name SET name = value {, name = value} [WHERE name op value {AND name op value}]",
        ),
        _ => small_grammar_of(word),
    }
}

fn small_grammar_of(word: &[u8]) -> Option<&'static [u8]> {
    match word {
        b"PRESENT" => Some(
            b"PRESENT name                                   a user, or PUBLIC for nobody",
        ),
        b"VERIFY" => Some(
            b"VERIFY secret                                  of the user who is presented",
        ),
        b"BEGIN" | b"COMMIT" | b"ROLLBACK" => Some(
            b"BEGIN
  COMMIT
  ROLLBACK",
        ),
        b"OPEN" | b"CLOSE" | b"CHANNEL" => Some(
            b"OPEN CHANNEL (1 | 2 | 3)
  CLOSE CHANNEL (1 | 2 | 3)
  CHANNEL (0 | 1 | 2 | 3)                       statements go there from here on",
        ),
        b"RESET" => Some(b"RESET"),
        _ => None,
    }
}

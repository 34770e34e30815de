// What a person is shown of lines, word for word.
use crate::{Cells, Guide, Occasion, Statements, Why};
use arrayvec::ArrayVec;
use person::{Person, Presence};
use scql_base::StatusWord;
use script::Statement;
use std::process::Abort;
use taken_line::TakenLine;

/// A screen that keeps what it shows.
#[derive(Drop)]
struct Page {
    text: ArrayVec<u8, 4000>,
}

impl Person for Page {
    ghost use Rattle.std.specs.Prelude.{None, false};

    ghost shown = { λ _. None };

    ghost lost = { λ _. false };

    fn show(&mut self, text: &[u8]) {
        // A text that is full stays as it is.
        let _ = self.text.try_extend_from_slice(text);
    }

    fn presence(&self) -> Presence {
        Presence::Typing
    }

    fn show_title(&mut self) {
        self.show(b"card.img");
    }
}

const CELLS: Cells = Cells { used: 25, all: 64 };

// Why a line isn't carried out: it is at fault, or the card refuses it by this word.
fn why_of(line: Option<TakenLine<'_>>, word: u16) -> Option<Why> {
    let Some(line) = line else {
        return Some(Why::TooLong);
    };
    match Statement::read(line) {
        Err(fault) => Some(Why::Fault { fault }),
        Ok(_) if word == 0x9000 => None,
        Ok(_) => Some(Why::Word {
            word: StatusWord { word },
        }),
    }
}

// What a line shows, before and behind its text.
fn told(guide: &mut Guide<Statements>, line: &str, word: u16) -> Page {
    let line = TakenLine::of(line.as_bytes());
    let mut page = Page {
        text: ArrayVec::new(),
    };
    guide.tell(Occasion::Line { line }, &mut page);
    let outcome = Occasion::Outcome {
        line,
        why: why_of(line, word),
        cells: Some(CELLS),
    };
    guide.tell(outcome, &mut page);
    page
}

// Compares what each of these lines shows.
fn all_show(rt: &impl Abort, guide: &mut Guide<Statements>, lines: &[(&str, u16, &str)]) {
    for (line, word, wanted) in lines {
        let page = told(guide, line, *word);
        assert_eq!(rt; page.text.as_slice(), wanted.as_bytes(), "{line}");
    }
}

const FAULTS: [(&str, u16, &str); 24] = [
    (
        "CREATE TABLE PATIENTS (NAME, BIRTHDATE)",
        0x9000,
        "  CREATE TABLE PATIENTS (NAME, BIRTHDATE)\n                               ^ a name has 1 to 8 of A-Z, 0-9, _; this word has 9\n",
    ),
    (
        "select * from item",
        0x9000,
        "  select * from item\n  ^ words are in capital letters: SELECT\n",
    ),
    (
        "SELECT A B FROM T",
        0x9000,
        "  SELECT A B FROM T\n           ^ here stands , or FROM\n",
    ),
    (
        "INSERT INTO T VALUES ('Ann', 1980)",
        0x9000,
        "  INSERT INTO T VALUES ('Ann', 1980)\n                               ^ a value stands in quotes: '1980'\n",
    ),
    ("help", 0x9000, "  help\n  ^ #help lists the statements\n"),
    ("quit", 0x9000, "  quit\n  ^ ^D leaves\n"),
    (".tables", 0x9000, "  .tables\n  ^ #help tables\n"),
    (
        "SELCT * FROM T",
        0x9000,
        "  SELCT * FROM T\n  ^ a statement begins with SELECT, INSERT, UPDATE, DELETE, CREATE, DROP, GRANT, REVOKE, PRESENT, VERIFY, BEGIN, COMMIT, ROLLBACK, OPEN, CLOSE, CHANNEL or RESET; the nearest is SELECT\n",
    ),
    (
        "SELECT",
        0x9000,
        "  SELECT\n        ^ here stands a name or *\n",
    ),
    (
        "SELECT A, A FROM T",
        0x9000,
        "  SELECT A, A FROM T\n            ^ A is there already\n",
    ),
    (
        "SELECT Name FROM T",
        0x9000,
        "  SELECT Name FROM T\n          ^ words are in capital letters: NAME\n",
    ),
    (
        "DROP USER ANN",
        0x9000,
        "  DROP USER ANN\n       ^ here stands TABLE or VIEW\n",
    ),
    (
        "CREATE USER ANN DBBU '123'",
        0x9000,
        "  CREATE USER ANN DBBU '123'\n                       ^ a secret has none or 4 to 8 octets; this has 3\n",
    ),
    (
        "VERIFY ''",
        0x9000,
        "  VERIFY ''\n         ^ a secret that is shown has at least one octet\n",
    ),
    (
        "VERIFY X'1'",
        0x9000,
        "  VERIFY X'1'\n         ^ X'..' has an even number of digits 0-9, A-F\n",
    ),
    (
        "INSERT INTO T VALUES ('a",
        0x9000,
        "  INSERT INTO T VALUES ('a\n                        ^ this ' isn't closed\n",
    ),
    (
        "OPEN CHANNEL 0",
        0x9000,
        "  OPEN CHANNEL 0\n               ^ here stands 1, 2 or 3\n",
    ),
    (
        "SELECT * FROM T WHERE A LIKE 'x'",
        0x9000,
        "  SELECT * FROM T WHERE A LIKE 'x'\n                          ^ here stands =, <, >, <=, >= or <>\n",
    ),
    (
        "GRANT ALL ON T TO U",
        0x9000,
        "  GRANT ALL ON T TO U\n        ^ here stands SELECT, INSERT, UPDATE or DELETE\n",
    ),
    (
        "BEGIN;;",
        0x9000,
        "  BEGIN;;\n        ^ here stands the end\n",
    ),
    (
        "SELECT * FORM T",
        0x9000,
        "  SELECT * FORM T\n           ^ here stands FROM\n",
    ),
    (
        "SELECT A, B, C, D, E, F, G, H, I, J, K, L, M, N, O, P FROM T",
        0x9000,
        "  SELECT A, B, C, D, E, F, G, H, I, J, K, L, M, N, O, P FROM T\n                                                    ^ there is a limit of 15 names\n",
    ),
    (
        "DROP\tTABLE \u{e9}",
        0x9000,
        "  DROP TABLE ??\n             ^ here stands a name\n",
    ),
    (
        "DELETE FROM T WHERE A='' AND A='' AND A='' AND A='' AND A='' AND A='' AND A='' AND A='' AND A=''",
        0x9000,
        "  DELETE FROM T WHERE A='' AND A='' AND A='' AND A='' AND A='' AND A='' AND A='' AND A='' AND A=''\n                                                                                          ^ there is a limit of 8 conditions\n",
    ),
];

const REFUSALS: [(&str, u16, &str); 36] = [
    (
        "SELECT * FROM ITEM",
        0x6982,
        "  not allowed: nobody is proved on channel 0 (PRESENT and VERIFY)\n",
    ),
    ("PRESENT OWNER", 0x9000, ""),
    (
        "CREATE TABLE T (A)",
        0x9000,
        "  note: OWNER has no secret, so whoever holds the card owns this table\n",
    ),
    ("CREATE TABLE U (A)", 0x9000, ""),
    ("PRESENT NURS", 0x6A88, "  not found: no user NURS\n"),
    ("PRESENT ANN", 0x9000, ""),
    (
        "SELECT * FROM ITEM",
        0x6A88,
        "  not found: ANN sees no object ITEM, or it has no column of that name (VERIFY first, if ANN has a secret)\n",
    ),
    (
        "VERIFY 'secret'",
        0x63C2,
        "  wrong secret: 2 tries are left\n",
    ),
    (
        "VERIFY 'secret'",
        0x63C0,
        "  wrong secret: no try is left, and none comes back\n",
    ),
    (
        "VERIFY 'secret'",
        0x6983,
        "  blocked: no try is left. Its owner can delete the user and make it anew\n",
    ),
    ("VERIFY 'secret'", 0x9000, ""),
    (
        "VERIFY 'secret'",
        0x6985,
        "  nothing to verify: nobody is presented, the user has no secret or is proved, or a transaction is open\n",
    ),
    (
        "SELECT NAME, QTY FROM ITEM",
        0x6A88,
        "  NAME, QTY\n  not found: ANN sees no object ITEM, or it has no column of that name\n",
    ),
    (
        "SELECT * FROM ITEM",
        0x6982,
        "  not allowed: ANN doesn't hold this right\n",
    ),
    (
        "INSERT INTO ITEM VALUES ('x')",
        0x6A88,
        "  not found: ANN sees no table ITEM\n",
    ),
    (
        "REVOKE SELECT ON DIAG FROM NURS",
        0x6A88,
        "  not found: no object DIAG of ANN's, no user NURS, or no grant to take\n",
    ),
    (
        "GRANT SELECT ON DIAG TO NURS",
        0x6A88,
        "  not found: no object DIAG of ANN's, or no user NURS\n",
    ),
    (
        "INSERT INTO ITEM VALUES ('x')",
        0x6A80,
        "  not so many values: ITEM has another number of columns, or the row is longer than this card takes (240, migrated 1,020)\n",
    ),
    (
        "INSERT INTO ITEM VALUES ('x')",
        0x6A84,
        "  no room: 25 cells are used of 64\n",
    ),
    ("CREATE TABLE DIAG (A)", 0x6A89, "  DIAG is there already\n"),
    ("COMMIT", 0x6985, "  this channel has no transaction\n"),
    ("DROP TABLE DIAG", 0x6985, "  a view rests on it\n"),
    (
        "DELETE USER BOB",
        0x6985,
        "  OWNER, or it owns users or objects: drop these first; or a transaction is open\n",
    ),
    (
        "CREATE VIEW V AS SELECT * FROM W",
        0x6985,
        "  four views over one another are the most\n",
    ),
    ("DELETE FROM D", 0x6985, "  a dictionary is only read\n"),
    ("OPEN CHANNEL 1", 0x9000, ""),
    ("CHANNEL 1", 0x9000, ""),
    ("BEGIN", 0x9000, ""),
    ("BEGIN", 0x6985, "  a transaction is open\n"),
    ("CHANNEL 0", 0x9000, ""),
    (
        "INSERT INTO ITEM VALUES ('x')",
        0x6985,
        "  channel 1 has an open transaction: COMMIT or ROLLBACK there\n",
    ),
    ("CHANNEL 2", 0x9000, ""),
    (
        "SELECT * FROM ITEM",
        0x6881,
        "  channel 2 isn't open (OPEN CHANNEL 2)\n",
    ),
    (
        "SELECT * FROM ITEM",
        0x6581,
        "  the EEPROM failed; the card answers nothing more\n",
    ),
    (
        "SELECT * FROM ITEM",
        0x6F00,
        "  the card answered 6F00 (docs/PROFILE.md)\n",
    ),
    (
        "#help REVOKE",
        0x9000,
        "  REVOKE priv {, priv} ON name FROM name         priv: SELECT, INSERT, UPDATE or DELETE\n",
    ),
];

#[test]
fn faults_are_marked(rt: HostRuntime) {
    all_show(
        &rt,
        &mut Guide::new(Statements::new(), Presence::Typing),
        &FAULTS,
    );
}

#[test]
fn refusals_are_explained(rt: HostRuntime) {
    all_show(
        &rt,
        &mut Guide::new(Statements::new(), Presence::Typing),
        &REFUSALS,
    );
}

// Three worked scripts over cards of 64 cells, and what the card of an image tells after each of their commits.
use super::{no_faults, run_over};
use program::Status;
use std::alloc::{AllocError, Global};

/// What a script's lines are, its text, and how many times it commits in all.
#[derive(Clone, Copy)]
pub(super) struct Script {
    /// In which form its lines are read.
    pub(super) form: &'static str,
    /// What the card is made with, in the form `new`: lines, and their answers.
    made_by: (&'static str, &'static str),
    /// Each line with its text, and how often it commits.
    lines: &'static [(&'static str, &'static str, usize)],
    /// How its run ends.
    pub(super) status: Status,
    /// What asks for the state of the card, in the same form.
    pub(super) probe: &'static str,
    /// What is told then, by how many commits are there.
    pub(super) states: &'static [&'static str],
}

/// BOB, a basic user with a secret, is presented, and gives it: one try less is committed, and then all tries.
pub(super) const VERIFICATION: Script = Script {
    form: "apdu",
    made_by: (
        "0014008006054F574E4552\n001400810B03424F4201030431323334\n",
        "9000\n9000\n",
    ),
    lines: &[
        ("001400800403424F42\n", "9000\n", 0),
        ("002000000431323334\n", "9000\n", 2),
    ],
    status: Status::Done,
    // A wrong secret tells how many tries are left.
    probe: "001400800403424F42\n002000000430303030\n",
    states: &["9000\n63C2\n", "9000\n63C1\n", "9000\n63C2\n"],
};

/// OWNER inserts a second row of a table in a transaction, and commits it.
pub(super) const TRANSACTION: Script = Script {
    form: "apdu",
    made_by: (
        "0014008006054F574E4552\n0010008006015401410142\n0010008C050154017800\n",
        "9000\n9000\n9000\n",
    ),
    lines: &[
        ("0014008006054F574E4552\n", "9000\n", 0),
        ("00120080\n", "9000\n", 0),
        ("0010008C050154017900\n", "9000\n", 0),
        ("00120081\n", "9000\n", 1),
    ],
    status: Status::Done,
    probe: "0014008006054F574E4552\n001000870401540100\n00100088\n0010008A00\n0010008B00\n",
    states: &[
        "9000\n9000\n9000\n0178009000\n6282\n",
        "9000\n9000\n9000\n0178009000\n0179009000\n",
    ],
};

/// OWNER fills a table and makes a view of it, which ANN may read.
pub(super) const STOCK: Script = Script {
    form: "term",
    made_by: ("", ""),
    lines: &[
        ("PRESENT OWNER\n", "ok\n", 0),
        ("CREATE TABLE ITEM (NAME, PLACE, QTY)\n", "ok\n", 1),
        (
            "INSERT INTO ITEM VALUES ('bolt', 'B1', '0040')\n",
            "ok\n",
            1,
        ),
        ("INSERT INTO ITEM VALUES ('cap', 'A2', '0007')\n", "ok\n", 1),
        ("INSERT INTO ITEM VALUES ('rod', 'B1', '0003')\n", "ok\n", 1),
        (
            "INSERT INTO ITEM VALUES ('it''s', 'B1', '0050')\n",
            "ok\n",
            1,
        ),
        ("INSERT INTO ITEM VALUES (X'00', 'A2', '0099')\n", "ok\n", 1),
        (
            "CREATE VIEW B1 AS SELECT NAME, QTY FROM ITEM WHERE PLACE = 'B1' AND QTY >= '0040'\n",
            "ok\n",
            1,
        ),
        ("CREATE USER ANN DBBU\n", "ok\n", 1),
        ("GRANT SELECT ON B1 TO ANN\n", "ok\n", 1),
        ("PRESENT ANN\n", "ok\n", 0),
        (
            "SELECT * FROM B1\n",
            "'bolt', '0040'\n'it''s', '0050'\nrows 2\n",
            0,
        ),
        ("SELECT * FROM ITEM\n", "refused 6A88\n", 0),
        ("PRESENT OWNER\n", "ok\n", 0),
        (
            "SELECT NAME FROM ITEM WHERE PLACE = 'A2'\n",
            "'cap'\nX'00'\nrows 2\n",
            0,
        ),
    ],
    status: Status::Refused,
    // Where ANN isn't there OWNER stays presented.
    probe: "PRESENT OWNER\nSELECT QTY FROM ITEM\nPRESENT ANN\nSELECT NAME FROM B1\n",
    states: &[
        "ok\nrefused 6A88\nrefused 6A88\nrefused 6A88\n",
        "ok\nrows 0\nrefused 6A88\nrefused 6A88\n",
        "ok\n'0040'\nrows 1\nrefused 6A88\nrefused 6A88\n",
        "ok\n'0040'\n'0007'\nrows 2\nrefused 6A88\nrefused 6A88\n",
        "ok\n'0040'\n'0007'\n'0003'\nrows 3\nrefused 6A88\nrefused 6A88\n",
        "ok\n'0040'\n'0007'\n'0003'\n'0050'\nrows 4\nrefused 6A88\nrefused 6A88\n",
        "ok\n'0040'\n'0007'\n'0003'\n'0050'\n'0099'\nrows 5\nrefused 6A88\nrefused 6A88\n",
        "ok\n'0040'\n'0007'\n'0003'\n'0050'\n'0099'\nrows 5\nrefused 6A88\n'bolt'\n'it''s'\nrows 2\n",
        "ok\n'0040'\n'0007'\n'0003'\n'0050'\n'0099'\nrows 5\nok\nrefused 6A88\n",
        "ok\n'0040'\n'0007'\n'0003'\n'0050'\n'0099'\nrows 5\nok\n'bolt'\n'it''s'\nrows 2\n",
    ],
};

impl Script {
    /// The image that it begins with: a card of 64 cells. It is None where that couldn't be made.
    pub(super) fn image(&self, alloc: Global) -> Result<Option<Vec<u8>>, AllocError> {
        let (lines, answers) = self.made_by;
        let empty = vec![in alloc; 0u8; 4514]?;
        let (_, made) = run_over(alloc, &["new", "64"], lines, &empty, no_faults(alloc))?;
        if made.given() != answers.as_bytes() {
            return Ok(None);
        }
        Ok(Some(Vec::from_slice(alloc, made.image())?))
    }

    /// Its input.
    pub(super) fn input(&self, alloc: Global) -> Result<String, AllocError> {
        let mut input = String::new(alloc);
        for (line, _, _) in self.lines {
            input.push_str(line)?;
        }
        Ok(input)
    }

    /// The text of so many of its lines, or of all where it has fewer.
    pub(super) fn text_of(&self, alloc: Global, lines: usize) -> Result<String, AllocError> {
        let mut texts = String::new(alloc);
        for (_, text, _) in self.lines.iter().take(lines) {
            texts.push_str(text)?;
        }
        Ok(texts)
    }

    /// How many lines it has.
    pub(super) fn len(&self) -> usize {
        self.lines.len()
    }

    /// How many of its lines were heard where so many octets had gone out.
    pub(super) fn heard(&self, given: usize) -> usize {
        let mut heard = 0usize;
        let mut octets = 0usize;
        for (_, text, _) in self.lines {
            octets = octets.saturating_add(text.len());
            if octets <= given {
                heard = heard.saturating_add(1);
            }
        }
        heard
    }

    /// How often so many of its lines commit.
    pub(super) fn commits_to(&self, lines: usize) -> usize {
        let mut commits = 0usize;
        for (_, _, more) in self.lines.iter().take(lines) {
            commits = commits.saturating_add(*more);
        }
        commits
    }

    /// Whether a card tells so after some number of commits, which is at least the first and at most the second.
    pub(super) fn is_told(&self, told: &[u8], least: usize, most: usize) -> bool {
        self.states
            .iter()
            .take(most.saturating_add(1))
            .skip(least)
            .any(|state| state.as_bytes() == told)
    }
}

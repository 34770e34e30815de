// The rack's own statements.
ghost use Rattle.std.specs.Prelude.{◌≡◌, IfSome};
ghost use Rattle.reader_rack.specs.Statements as statements;
ghost use Rattle.reader_rack.specs.Statements.{IsReader, names_reader};

use script::Tokens;

/// A statement that the rack carries out itself.
#[derive(Clone, Copy, PartialEq, Eq, Debug)]
pub enum RackStatement {
    /// `READER n`: lines go to this reader from here on.
    Select { reader: u8 },
    /// `EJECT n`: this reader's link is set aside.
    Eject { reader: u8 },
}

/// The rack's own statement that a line is, if it is one.
pub fn rack_statement(line: &[u8]) -> Option<RackStatement>
    ensures statement { result ≡ statements.rack_statement line.now }
    ensures reader { IfSome result (λ statement. IsReader (names_reader statement)) }
{
    let mut tokens = Tokens::new(line);
    let word = tokens.next();
    // Most lines are none, and are looked at no further.
    if !matches!(word, b"READER" | b"EJECT") {
        return None;
    }
    tokens.skip();
    let reader = reader_of(tokens.next())?;
    tokens.skip();
    tokens.takes(b";");
    if !tokens.is_at_end() {
        return None;
    }
    match word {
        b"READER" => Some(RackStatement::Select { reader }),
        b"EJECT" => Some(RackStatement::Eject { reader }),
        _ => None,
    }
}

// The number of a reader.
fn reader_of(token: &[u8]) -> Option<u8>
    ensures number { result ≡ statements.reader_of token.now }
    ensures reader { IfSome result IsReader }
{
    match token {
        b"1" => Some(1),
        b"2" => Some(2),
        b"3" => Some(3),
        b"4" => Some(4),
        _ => None,
    }
}

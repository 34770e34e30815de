// How long a token is.
ghost use Rattle.std.specs.Prelude.{◌≡◌, false, option_map, ◌+◌, unwrap_or};
ghost use Rattle.scql_base.specs.Name.{is_name_octet};
ghost use Rattle.scql_model.specs.Lines.{is_blank};
ghost use Rattle.script.specs.Tokens as tokens;

/// How many octets of a line are its first token, which begins with the line's first octet.
/// Octets that begin no token are one, up to the line's end.
pub(crate) fn token_len(line: &[u8]) -> usize
    ensures { result ≡ tokens.token_len line.now }
{
    let len = word_len(line)
        .max(number_len(line))
        .max(literal_len(line))
        .max(hexadecimal_len(line))
        .max(sign_len(line));
    if len == 0 { line.len() } else { len }
}

/// Is this a space, a tab or a carriage return?
pub(crate) fn is_blank(octet: u8) -> bool
    ensures { result ≡ is_blank octet }
{
    octet == b' ' || octet == b'\t' || octet == b'\r'
}

fn word_len(line: &[u8]) -> usize
    ensures { result ≡ tokens.word_len line.now }
{
    if begins_word(line) {
        name_octets(line)
    } else {
        0
    }
}

fn name_octets(line: &[u8]) -> usize
    ensures { result ≡ tokens.name_octets line.now }
{
    line.iter()
        .take_while(|octet| is_name_octet(**octet))
        .count()
}

fn begins_word(line: &[u8]) -> bool
    ensures { result ≡ tokens.begins_word line.now }
{
    match line {
        [first, ..] => first.is_ascii_uppercase(),
        [] => false,
    }
}

fn is_name_octet(octet: u8) -> bool
    ensures { result ≡ is_name_octet octet }
{
    octet.is_ascii_uppercase() || octet.is_ascii_digit() || octet == b'_'
}

fn number_len(line: &[u8]) -> usize
    ensures { result ≡ tokens.number_len line.now }
{
    line.iter()
        .take_while(|octet| octet.is_ascii_digit())
        .count()
}

fn literal_len(line: &[u8]) -> usize
    ensures { result ≡ tokens.literal_len line.now }
{
    match line {
        [b'\'', rest @ ..] => closed(rest),
        _ => 0,
    }
}

// How many octets a literal has of which these stand behind its first quote; none where it isn't closed.
fn closed(rest: &[u8]) -> usize
    ensures { result ≡ unwrap_or (option_map (λ n. n + 1) (tokens.closed false rest.now)) 0 }
{
    let mut len = 0;
    let mut behind = false;
    for (i, octet) in rest.iter().enumerate() {
        if *octet == b'\'' {
            behind = !behind;
            if behind {
                len = i + 2;
            }
        } else if behind {
            return len;
        }
    }
    len
}

fn hexadecimal_len(line: &[u8]) -> usize
    ensures { result ≡ tokens.hexadecimal_len line.now }
{
    if !line.starts_with(b"X'") {
        return 0;
    }
    let rest = &line[2..];
    let digits = digits_len(rest);
    if digits % 2 == 0 && rest[digits..].starts_with(b"'") {
        digits + 3
    } else {
        0
    }
}

fn digits_len(rest: &[u8]) -> usize
    ensures { result ≡ tokens.digits_len rest.now }
{
    rest.iter()
        .take_while(|octet| octet.is_ascii_hexdigit())
        .count()
}

fn sign_len(line: &[u8]) -> usize
    ensures { result ≡ tokens.sign_len line.now }
{
    match line {
        [b'<', b'=' | b'>', ..] | [b'>', b'=', ..] => 2,
        [
            b'(' | b')' | b',' | b'*' | b';' | b'=' | b'<' | b'>' | b'.',
            ..
        ] => 1,
        _ => 0,
    }
}

// The words of the command line behind the file's name.
ghost use Rattle.std.specs.Prelude.{◌≡◌, ◌<◌, ◌≤◌, ◌*◌, ◌+◌, map, length, option_map};
ghost use Rattle.std.specs.String.{string_bytes};
ghost use Rattle.std.specs.List.{list_all};
ghost use Rattle.std.specs.Char.{is_ascii_digit};
ghost use Rattle.card_run.specs.Words as forms;

/// How many cells a card has at least and at most.
const FEWEST: u32 = 16;

const MOST: u32 = 2048;

/// How many rows a load has at most, and from which number it goes at most.
const MOST_ROWS: u32 = 1000;

const MOST_SEED: u32 = 65535;

/// What the words ask for.
#[derive(Clone, Copy, PartialEq, Eq, Debug)]
pub(crate) enum Form {
    /// `new N`: a card is made of so many cells, and answers the lines.
    New { cells: u16 },
    /// `apdu`: the card that is there answers the lines.
    Apdu,
    /// `term`: the card that is there carries out the lines as statements.
    Term,
    /// `check`: the card that is there says what it holds, and no line is read.
    Check,
    /// `load K SEED`: the card that is there runs a script of so many rows from a number, and no line is read.
    Load { rows: u16, seed: u16 },
    /// `migrate`: the card that is there gets longer rows, and no line is read.
    Migrate,
}

/// The form that the words are of.
pub(crate) fn form_of(words: &[String]) -> Option<Form>
    ensures { result ≡ forms.form_in (map string_bytes words.now) }
{
    match words {
        [word] if word.as_bytes() == b"apdu".as_slice() => Some(Form::Apdu),
        [word] if word.as_bytes() == b"term".as_slice() => Some(Form::Term),
        [word] if word.as_bytes() == b"check".as_slice() => Some(Form::Check),
        [word] if word.as_bytes() == b"migrate".as_slice() => Some(Form::Migrate),
        [word, digits] if word.as_bytes() == b"new".as_slice() => {
            let cells = cells_of(digits.as_bytes())?;
            Some(Form::New { cells })
        }
        [word, rows, seed] if word.as_bytes() == b"load".as_slice() => {
            load_of(rows.as_bytes(), seed.as_bytes())
        }
        _ => None,
    }
}

// The number of cells that digits tell.
fn cells_of(digits: &[u8]) -> Option<u16>
    ensures { result ≡ forms.cells_asked digits.now }
{
    let cells = decimal_of(digits)?;
    if cells < FEWEST || MOST < cells {
        return None;
    }
    Some(cells as u16)
}

// The load that digits tell: how many rows it has, and from which number it goes.
fn load_of(rows: &[u8], seed: &[u8]) -> Option<Form>
    ensures { result ≡ forms.load_asked (forms.decimal_in rows.now) (forms.decimal_in seed.now) }
{
    let rows = decimal_of(rows)?;
    let seed = decimal_of(seed)?;
    if MOST_ROWS < rows || MOST_SEED < seed {
        return None;
    }
    Some(Form::Load {
        rows: rows as u16,
        seed: seed as u16,
    })
}

// The number that one to five decimal digits spell.
fn decimal_of(digits: &[u8]) -> Option<u32>
    ensures { result ≡ forms.decimal_in digits.now }
{
    if !is_number(digits) {
        return None;
    }
    let mut number = 0u32;
    for digit in digits {
        number = number * 10 + (*digit - b'0') as u32;
    }
    Some(number)
}

fn is_number(digits: &[u8]) -> bool
    ensures { result ≡ forms.is_number digits.now }
{
    !digits.is_empty() && digits.len() <= 5 && are_digits(digits)
}

fn are_digits(octets: &[u8]) -> bool
    ensures { result ≡ list_all is_ascii_digit octets.now }
{
    octets.iter().all(|octet| octet.is_ascii_digit())
}

// Which commands come in parts (ISO/IEC 7816-4, command chaining).
ghost use Rattle.std.specs.Prelude.{◌≡◌};
ghost use Rattle.scql_model.specs.Operations as table;
ghost use Rattle.scql_model.specs.Spelling as spelling;

use scql_base::{Command, OperationKind};

/// Whether the data field of an operation may come in parts: that of INSERT and UPDATE may.
pub fn comes_in_parts(kind: OperationKind) -> bool
    ensures { result ≡ table.comes_in_parts kind }
{
    matches!(kind, OperationKind::Insert | OperationKind::Update)
}

/// Whether a command goes on with the parts of another.
pub fn goes_on(kind: OperationKind, before: OperationKind) -> bool
    ensures { result ≡ table.goes_on kind before }
{
    comes_in_parts(kind) && kind == before
}

// How many octets a data field may have.
pub(crate) fn longest_field(kind: OperationKind) -> usize
    ensures { result ≡ spelling.longest_field kind }
{
    if comes_in_parts(kind) {
        Command::LONGEST_IN_PARTS
    } else {
        Command::LONGEST_DATA
    }
}

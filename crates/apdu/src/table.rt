// The table of operations: which INS, P1 and P2 ask for which (ISO/IEC 7816-7 for those of SCQL, ISO/IEC 7816-4 for the others).
ghost use Rattle.std.specs.Prelude.{◌≡◌, ◌==◌, ◌&&◌, slice_get};
ghost use Rattle.std.specs.List.{find, list_any};
ghost use Rattle.scql_model.specs.Operations as table;
ghost use Rattle.scql_model.specs.Spelling as spelling;

use scql_base::{Line, Operation, OperationKind, Takes};

macro_rules! operation {
    ($ins:literal $p1:literal $p2:literal $kind:ident $({ number: $number:literal })?, $takes:ident) => {
        Line {
            ins: $ins,
            p1: $p1,
            p2: $p2,
            kind: OperationKind::$kind $({ number: $number })?,
            takes: Takes::$takes,
        }
    };
}

// All operations. The number of a channel to open or to close is P2.
static OPERATIONS: [Line; 31] = [
    operation!(0x10 0x00 0x80 CreateTable, DataField),
    operation!(0x10 0x00 0x81 CreateView, DataField),
    operation!(0x10 0x00 0x82 CreateDictionary, DataField),
    operation!(0x10 0x00 0x83 DropTable, DataField),
    operation!(0x10 0x00 0x84 DropView, DataField),
    operation!(0x10 0x00 0x85 Grant, DataField),
    operation!(0x10 0x00 0x86 Revoke, DataField),
    operation!(0x10 0x00 0x87 DeclareCursor, DataField),
    operation!(0x10 0x00 0x88 OpenCursor, Nothing),
    operation!(0x10 0x00 0x89 Next, Nothing),
    operation!(0x10 0x00 0x8A Fetch, LeAlone),
    operation!(0x10 0x00 0x8B FetchNext, LeAlone),
    operation!(0x10 0x00 0x8C Insert, DataField),
    operation!(0x10 0x00 0x8D Update, DataField),
    operation!(0x10 0x00 0x8E Delete, Nothing),
    operation!(0x12 0x00 0x80 Begin, Nothing),
    operation!(0x12 0x00 0x81 Commit, Nothing),
    operation!(0x12 0x00 0x82 Rollback, Nothing),
    operation!(0x14 0x00 0x80 PresentUser, DataField),
    operation!(0x14 0x00 0x81 CreateUser, DataField),
    operation!(0x14 0x00 0x82 DeleteUser, DataField),
    operation!(0x20 0x00 0x00 Verify, DataField),
    operation!(0x70 0x00 0x00 OpenChannel { number: 0 }, LeAlone),
    operation!(0x70 0x00 0x01 OpenChannel { number: 1 }, Nothing),
    operation!(0x70 0x00 0x02 OpenChannel { number: 2 }, Nothing),
    operation!(0x70 0x00 0x03 OpenChannel { number: 3 }, Nothing),
    operation!(0x70 0x80 0x00 CloseChannel { number: 0 }, Nothing),
    operation!(0x70 0x80 0x01 CloseChannel { number: 1 }, Nothing),
    operation!(0x70 0x80 0x02 CloseChannel { number: 2 }, Nothing),
    operation!(0x70 0x80 0x03 CloseChannel { number: 3 }, Nothing),
    operation!(0xC0 0x00 0x00 GetResponse, LeAlone),
];

// So many places are told apart by the last four bits of P2.
const PLACES: u8 = 16;

// The table, line beside line.
fn operations() -> &'static [Line]
    ensures { result.now ≡ table.operations }
{
    &OPERATIONS
}

// Some operation has this instruction.
pub(crate) fn has_instruction(ins: u8) -> bool
    ensures { result ≡ table.has_instruction table.operations ins }
{
    is_among(operations(), ins)
}

fn is_among(lines: &[Line], ins: u8) -> bool
    ensures { result ≡ list_any (λ line. line.ins == ins) lines.now }
{
    lines.iter().any(|line| line.ins == ins)
}

// The line of the operation for INS, P1 and P2. The operations on the database stand first, each at the place that its
// P2 ends with, so that one line is looked at before all are.
pub(crate) fn line_of(ins: u8, p1: u8, p2: u8) -> Option<Line>
    ensures { result ≡ table.line_of table.operations ins p1 p2 }
{
    let lines = operations();
    match line_at(lines, usize::from(p2 % PLACES)) {
        Some(line) if is_for(&line, ins, p1, p2) => Some(line),
        _ => find_line(lines, ins, p1, p2),
    }
}

fn line_at(lines: &[Line], place: usize) -> Option<Line>
    ensures { result ≡ slice_get lines.now place }
{
    lines.get(place).copied()
}

// A line is for INS, P1 and P2.
fn is_for(line: &Line, ins: u8, p1: u8, p2: u8) -> bool
    ensures { result ≡ (line.now.ins == ins && line.now.p1 == p1 && line.now.p2 == p2) }
{
    line.ins == ins && line.p1 == p1 && line.p2 == p2
}

// It isn't inlined, since what a scan asks for stands where it is looked for first.
#[inline(never)]
fn find_line(lines: &[Line], ins: u8, p1: u8, p2: u8) -> Option<Line>
    ensures { result ≡ find (λ line. line.ins == ins && line.p1 == p1 && line.p2 == p2) lines.now }
{
    lines.iter().copied().find(|line| is_for(line, ins, p1, p2))
}

// Which operation a command asks for.
pub(crate) fn kind_of(operation: &Operation) -> OperationKind
    ensures { result ≡ table.kind_of operation.now }
{
    match operation {
        Operation::CreateTable { .. } => OperationKind::CreateTable,
        Operation::CreateView { .. } => OperationKind::CreateView,
        Operation::CreateDictionary { .. } => OperationKind::CreateDictionary,
        Operation::DropTable { .. } => OperationKind::DropTable,
        Operation::DropView { .. } => OperationKind::DropView,
        Operation::Grant { .. } => OperationKind::Grant,
        Operation::Revoke { .. } => OperationKind::Revoke,
        Operation::DeclareCursor { .. } => OperationKind::DeclareCursor,
        Operation::OpenCursor => OperationKind::OpenCursor,
        Operation::Next => OperationKind::Next,
        Operation::Fetch => OperationKind::Fetch,
        Operation::FetchNext => OperationKind::FetchNext,
        Operation::Insert { .. } => OperationKind::Insert,
        Operation::Update { .. } => OperationKind::Update,
        Operation::Delete => OperationKind::Delete,
        Operation::Begin => OperationKind::Begin,
        Operation::Commit => OperationKind::Commit,
        Operation::Rollback => OperationKind::Rollback,
        Operation::PresentUser { .. } => OperationKind::PresentUser,
        Operation::CreateUser { .. } => OperationKind::CreateUser,
        Operation::DeleteUser { .. } => OperationKind::DeleteUser,
        Operation::Verify { .. } => OperationKind::Verify,
        Operation::OpenChannel { number } => OperationKind::OpenChannel { number: *number },
        Operation::CloseChannel { number } => OperationKind::CloseChannel { number: *number },
        Operation::GetResponse => OperationKind::GetResponse,
    }
}

// The line of an operation.
pub(crate) fn line_for(kind: OperationKind) -> Option<Line>
    ensures { result ≡ spelling.line_for table.operations kind }
{
    find_kind(operations(), kind)
}

fn find_kind(lines: &[Line], kind: OperationKind) -> Option<Line>
    ensures { result ≡ find (λ line. spelling.is_same line.kind kind) lines.now }
{
    lines.iter().copied().find(|line| line.kind == kind)
}

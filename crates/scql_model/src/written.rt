// Laws over commands that are written. Each is the contract of a function that does nothing.
ghost use Rattle.std.specs.Prelude.{◌≡◌, ◌<◌, ◌≤◌, ◌+◌, ◌*◌, ◌++◌, ◌∷◌, [], List, true, ℕ};
ghost use Rattle.scql_base.specs.declared.operation.Command.{Command};
ghost use Rattle.scql_base.specs.declared.operation.Line.{Line};
ghost use Rattle.scql_base.specs.declared.operation.OperationKind.{OperationKind};
ghost use Rattle.scql_model.specs.Form.{a_command, part_on};
ghost use Rattle.scql_model.specs.Operations.{has_secrets, kind_of, operations};
ghost use Rattle.scql_model.specs.Spelling.{HasLine, IsTaken, ReadsAs, first_parts, field_of, fits, octets_of, part_at, part_count, part_octets, parts_for};
ghost use Rattle.scql_model.specs.WellFormed.{IsWellFormed};

/// What is written of a well-formed command is read as that command, where its channel is open, no parts of such a command came
/// before it, and a row is within the limit: by each table that has the line of its operation.
pub fn what_is_written_is_read_back()
    ensures { (table : List Line) (limit : ℕ) (c : Command)
        → IsWellFormed c → HasLine table (kind_of c.operation) → IsTaken (has_secrets table) limit c.operation
        → ReadsAs table limit c [] (octets_of c) (a_command c) }
{}

/// The parts of a well-formed command that fits are read one by one, where its channel is open: each but the last as a part, behind
/// those before it, and the last as that command, where a row is within the limit.
pub fn parts_that_are_written_are_read_back()
    ensures part { (table : List Line) (limit : ℕ) (c : Command) (place : ℕ)
        → IsWellFormed c → fits c ≡ true → place + 1 < part_count c → HasLine table (kind_of c.operation)
        → ReadsAs table limit c (first_parts place (field_of c.operation)) (part_octets c place)
        (part_on c.channel (kind_of c.operation) (part_at place (field_of c.operation))) }
    ensures last { (table : List Line) (limit : ℕ) (c : Command) (place : ℕ)
        → IsWellFormed c → fits c ≡ true → place + 1 ≡ part_count c → HasLine table (kind_of c.operation)
        → IsTaken (has_secrets table) limit c.operation
        → ReadsAs table limit c (first_parts place (field_of c.operation)) (part_octets c place) (a_command c) }
    ensures next { (place : ℕ) (octets : List ℕ) → first_parts (place + 1) octets ≡ first_parts place octets ++ part_at place octets ∷ [] }
    ensures one { (c : Command) → part_count c ≡ 1 → part_octets c 0 ≡ octets_of c }
{}

/// A data field has as few parts as hold it, and at least one.
pub fn parts_are_the_least()
    ensures some { (size : ℕ) → 1 ≤ parts_for size }
    ensures enough { (size : ℕ) → size ≤ 255 * parts_for size }
    ensures least { (size n : ℕ) → 1 ≤ n → size ≤ 255 * n → parts_for size ≤ n }
{}

/// The table has the line of each operation.
pub fn operations_have_their_lines()
    ensures { (kind : OperationKind) → HasLine operations kind }
{}

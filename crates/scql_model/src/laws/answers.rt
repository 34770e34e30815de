// Laws on answers: which accept a command, when they come, what they change, and when nothing is written.
ghost use Rattle.std.specs.Prelude.{List, None, Some, [], length, ℕ, ◌↔◌, ◌≡◌, ◌⊎◌};
ghost use Rattle.scql_base.specs.declared.operation.Command.{Command};
ghost use Rattle.scql_base.specs.Words.{end_reached, tries_left};
ghost use Rattle.scql_model.specs.Accepting.{Accepts, AcceptsOrLeaves, CostsTry, EndsCursor, channel_named};
ghost use Rattle.scql_model.specs.Form.{a_command};
ghost use Rattle.scql_model.specs.Heard.{after_commits};
ghost use Rattle.scql_model.specs.Machine.{Machine};
ghost use Rattle.scql_model.specs.ReadingCommands.{ReadingCommand, reading_command};
ghost use Rattle.scql_model.specs.Step.{step};
ghost use Rattle.scql_model.specs.Answering.{AreCommand, ComesToEnd, ComparesWrong, IsTriesLeft};
ghost use Rattle.scql_model.specs.Bound.{octets_bound, octets_stepped};

/// A step that doesn't accept its command leaves the machine as it was, but that its channel may lose the parts of a command, and
/// commits nothing. A step ends at the last database that it commits.
pub fn a_step_accepts_or_leaves_the_machine()
    ensures accepts { (m : Machine) (octets : List ℕ) → AcceptsOrLeaves m octets (step m octets) }
    ensures last { (m : Machine) (octets : List ℕ)
        → after_commits m.committed (step m octets).commits (length (step m octets).commits) ≡ (step m octets).machine.committed }
{}

/// The answer 6282 comes where a cursor has no further row, and changes the cursor, the pending octets and the chain of its session
/// alone. The answer 63CX comes of a wrong secret, and changes the tries of one user and the chain of its channel alone.
pub fn an_answer_says_what_it_changes()
    ensures at_its_end { (m : Machine) (octets : List ℕ)
        → (step m octets).reply.word ≡ end_reached → EndsCursor m (channel_named octets) (step m octets) }
    ensures costs_a_try { (m : Machine) (octets : List ℕ) (n : ℕ)
        → (step m octets).reply.word ≡ tries_left n → CostsTry m (channel_named octets) (step m octets) }
{}

/// The answer 6282 comes exactly where a reading command comes to the end of its channel's cursor, and 63CX exactly where VERIFY compares a
/// wrong secret.
pub fn an_answer_comes_of_its_cause()
    ensures at_its_end { (m : Machine) (octets : List ℕ)
        → ((step m octets).reply.word ≡ end_reached) ↔ AreCommand m octets ComesToEnd }
    ensures costs_a_try { (m : Machine) (octets : List ℕ)
        → IsTriesLeft (step m octets).reply.word ↔ AreCommand m octets ComparesWrong }
{}

/// Nothing is written for a command that isn't accepted, for one that reads, and outside of a transaction for one that commits nothing.
pub fn nothing_is_written_without_a_change()
    ensures refused { (m : Machine) (octets : List ℕ)
        → Accepts (step m octets).reply.word ⊎ (octets_bound m octets ≡ 0) }
    ensures reading { (m : Machine) (c : Command) (command : ReadingCommand) → reading_command c.operation c.le ≡ Some command
        → octets_stepped m (a_command c) ≡ 0 }
    ensures uncommitted { (m : Machine) (octets : List ℕ) → m.transaction ≡ None
        → (step m octets).commits ≡ [] → octets_bound m octets ≡ 0 }
{}

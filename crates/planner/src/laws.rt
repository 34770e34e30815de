// Laws over the plans of statements. Each is the contract of a function that does nothing.
ghost use Rattle.std.specs.Prelude.{◌≡◌, ◌<◌, ℕ, suc, Bool, true, false, List, Option, None};
ghost use Rattle.scql_base.specs.declared.condition.Condition.{Condition};
ghost use Rattle.scql_model.specs.Database.{Database, IsValid};
ghost use Rattle.scql_model.specs.Heard.{IsLawful};
ghost use Rattle.scql_model.specs.Lines.{state_after};
ghost use Rattle.scql_model.specs.Machine.{Machine, base, start};
ghost use Rattle.scql_model.specs.ReadingLaws.{IsReadable};
ghost use Rattle.scql_model.specs.Replies.{Reply};
ghost use Rattle.scql_model.specs.Sessions.{is_channel_open};
ghost use Rattle.scql_model.specs.Step.{step};
ghost use Rattle.scql_model.specs.Tries.{SparesTries};
ghost use Rattle.script.specs.declared.statement.Statement.{Statement};
ghost use Rattle.script.specs.declared.statement.Statement.TheVariants.{Select};
ghost use Rattle.script.specs.Commands.{CanBeSent};
ghost use Rattle.planner.specs.Held.{TellsWhoHolds, held_after_octets, transaction_channel};
ghost use Rattle.planner.specs.Meaning.{meaning};
ghost use Rattle.planner.specs.Planned.{Planned, next_of, started};
ghost use Rattle.planner.specs.Readings.{IsReadingAt, IsSelect};
ghost use Rattle.planner.specs.Running.{AreRows, IsBrief, IsOfRows, RunsTo, RunsToMeaning, run, shown};
ghost use Rattle.planner.specs.SelectLines.{LinesSelectShown};
ghost use Rattle.planner.specs.Selecting.{SelectsWhatIsShown};
ghost use Rattle.planner.specs.StatementLines.{TerminalState, statement_lines};
ghost use Rattle.planner.specs.Turns.{IfGoesOn, turns_left};
ghost use Rattle.planner.specs.ValidStates.{IsValidState, KeepsValid};

/// A statement of one command, or of none, runs to its meaning: its command, answered by the steps of the machine, gives no row, ends as the
/// statement does, and leaves the same machine and commits.
pub fn brief_statements_run_to_their_meaning()
    ensures { (n : ℕ) (m : Machine) (channel : ℕ) (inside : Bool) (s : Statement) → IsBrief s
        → run (suc (suc n)) m None (started s channel inside) ≡ shown (meaning m channel s) }
{}

/// A SELECT on an open channel runs to its meaning: its commands, answered by the steps of the machine in turn, give the rows that match, each
/// once and in their order, or end with DECLARE's refusal, and the cursor is then at its end.
pub fn a_select_runs_to_its_meaning()
    ensures { (m : Machine) (channel : ℕ) (object : List ℕ) (columns : List (List ℕ)) (conditions : List Condition) (inside : Bool)
        → (let s : Statement = Select object columns conditions in
        is_channel_open m channel ≡ true → CanBeSent channel s → IsReadable (base m channel) → AreRows (meaning m channel s).rows
        → RunsTo m (started s channel inside) (shown (meaning m channel s))) }
{}

/// A SELECT on an open channel gives the rows, closes and prints as it follows from what is shown to the channel, and so does what is shown to it
/// afterwards: its cursor is at the end of the rows, or as before where it was refused. The channel stays open, what is shown to all others stays,
/// and nothing is committed.
pub fn a_select_reads_what_is_shown()
    ensures { (m : Machine) (channel : ℕ) (object : List ℕ) (columns : List (List ℕ)) (conditions : List Condition)
        → is_channel_open m channel ≡ true → IsReadable (base m channel)
        → SelectsWhatIsShown m channel object columns conditions (meaning m channel (Select object columns conditions)) }
{}

/// Whatever a plan of a SELECT is answered, it sends reading commands alone.
pub fn a_select_sends_reading_commands()
    ensures { (last : Option Reply) (p : Planned) → IsSelect p.statement → p.own ≡ false → IsReadingAt (next_of last p).plan (next_of last p).step }
{}

/// Whatever a plan is answered, each of its steps but the last leaves fewer.
pub fn a_plan_comes_to_its_end()
    ensures { (last : Option Reply) (p : Planned) → IfGoesOn (next_of last p).step (turns_left (next_of last p).plan < turns_left p) }
{}

/// On a channel that isn't open a statement of rows runs to its meaning: it is refused.
pub fn a_closed_channel_refuses_statements_of_rows()
    ensures { (m : Machine) (n channel : ℕ) (inside : Bool) (s : Statement) → IsOfRows s → CanBeSent channel s → is_channel_open m channel ≡ false
        → run (suc (suc n)) m None (started s channel inside) ≡ shown (meaning m channel s) }
{}

/// Every statement runs to its meaning where its channel reads a valid database: its commands, answered by the steps of the machine in turn, give
/// the meaning's rows and end as it does, within so many steps as a plan may take, and leave the same machine and commits.
pub fn statements_run_to_their_meaning()
    ensures { (m : Machine) (channel : ℕ) (s : Statement) → IsValid (base m channel) → CanBeSent channel s → RunsToMeaning m channel s }
{}

/// A line of statements ends at the last database that it commits, and one without a text commits nothing.
pub fn statements_are_lines()
    ensures { IsLawful statement_lines }
{}

/// A line of statements restores a user's tries, or leaves the user no more to lose than before: no line lowers them more often than the user
/// has tries left, whether in a transaction or outside of one.
pub fn statements_spare_tries()
    ensures { SparesTries statement_lines }
{}

/// After every statement it is told from how it closed which channel has the open transaction.
pub fn a_closing_tells_of_the_transaction()
    ensures { (m : Machine) (channel : ℕ) (s : Statement) → CanBeSent channel s → TellsWhoHolds m channel s (meaning m channel s) }
{}

/// After any octets it is told from them, and from the word of their answer, which channel has the open transaction.
pub fn octets_tell_of_the_transaction()
    ensures { (m : Machine) (octets : List ℕ)
        → transaction_channel (step m octets).machine ≡ held_after_octets octets (step m octets).reply.word (transaction_channel m) }
{}

/// A terminal that begins on channel 0 of a card that was opened with a valid database is on a valid machine. Each line of statements leaves it on
/// one, and commits valid databases.
pub fn lines_keep_a_machine_valid()
    ensures begins { (db : Database) → IsValid db → IsValidState (record { machine = start db; channel = 0 }) }
    ensures line { (state : TerminalState) (line : List ℕ) → IsValidState state → KeepsValid state line }
    ensures lines { (state : TerminalState) (lines : List (List ℕ)) → IsValidState state → IsValidState (state_after statement_lines state lines) }
{}

/// From a valid machine on each line that is a SELECT on an open channel prints what follows from what is shown to the channel, whatever lines
/// stand before it, and leaves shown what follows from that.
pub fn lines_select_what_is_shown()
    ensures { (from : TerminalState) → IsValidState from → LinesSelectShown from }
{}

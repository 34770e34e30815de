// Laws on reading: it is of what is shown.
ghost use Rattle.std.specs.Prelude.{List, Some, find, option_map, ℕ, ◌≡◌};
ghost use Rattle.std.specs.Cmp.Lexicographic.{slice_cmp};
ghost use Rattle.std.specs.List.Sorted.{IsSortedByKey};
ghost use Rattle.std.specs.Ordering.{nat_cmp};
ghost use Rattle.scql_base.specs.declared.operation.Command.{Command};
ghost use Rattle.scql_base.specs.declared.words.Actor.{Actor};
ghost use Rattle.scql_model.specs.Accepting.{channel_named};
ghost use Rattle.scql_model.specs.Answering.{AreCommand};
ghost use Rattle.scql_model.specs.Database.{Database, IsValid};
ghost use Rattle.scql_model.specs.Form.{a_command};
ghost use Rattle.scql_model.specs.Machine.{Machine, Reading, Session, base, session_of};
ghost use Rattle.scql_model.specs.Moves.{move_of};
ghost use Rattle.scql_model.specs.ReadingCommands.{ReadingCommand, reading_command};
ghost use Rattle.scql_model.specs.ReadingLaws.{IsReadable, IsReadingCommand, ReadsWhatIsShown, reading_after, replies_to};
ghost use Rattle.scql_model.specs.Reads.{is_called, read_next, read_reply};
ghost use Rattle.scql_model.specs.Rights.{seen_named};
ghost use Rattle.scql_model.specs.Shown.{ShownObject, object_shown, shown, shown_on};
ghost use Rattle.scql_model.specs.Step.{step, stepped};
ghost use Rattle.scql_model.specs.ValidMachine.{IsValidMachine};

/// The objects that are shown stand in the order of their names, and by each name the object is shown that is seen by it.
pub fn objects_are_shown_by_their_names()
    ensures sorted { (db : Database) (actor : Actor) (reading : Reading)
        → IsSortedByKey (λ (o : ShownObject). o.name) (slice_cmp nat_cmp) (shown db actor reading).objects }
    ensures seen { (db : Database) (actor : Actor) (reading : Reading) (name : List ℕ)
        → find (is_called name) (shown db actor reading).objects ≡ option_map (object_shown db actor) (seen_named db actor name) }
{}

/// The answer to a reading command follows from what is shown before it, and so does what is shown after it.
pub fn reading_is_of_what_is_shown()
    ensures valid { (db : Database) → IsValid db → IsReadable db }
    ensures reply { (db : Database) (actor : Actor) (reading : Reading) (command : ReadingCommand)
        → IsReadable db
        → (move_of db actor reading command).reply ≡ read_reply (shown db actor reading) command }
    ensures after { (db : Database) (actor : Actor) (reading : Reading) (command : ReadingCommand)
        → IsReadable db
        → shown db actor (move_of db actor reading command).after ≡ read_next (shown db actor reading) command }
{}

/// Where two cards show the same, the same reading commands in turn have the same answers, and then both show the same.
pub fn equal_shown_gives_equal_replies()
    ensures replies { (db other : Database) (actor another : Actor) (reading further : Reading) (commands : List ReadingCommand)
        → IsReadable db → IsReadable other
        → shown db actor reading ≡ shown other another further
        → replies_to db actor reading commands ≡ replies_to other another further commands }
    ensures after { (db other : Database) (actor another : Actor) (reading further : Reading) (commands : List ReadingCommand)
        → IsReadable db → IsReadable other
        → shown db actor reading ≡ shown other another further
        → shown db actor (reading_after db actor reading commands) ≡ shown other another (reading_after other another further commands) }
{}

/// The step of a reading command answers from what is shown on its channel. What is shown there afterwards follows from it too, and
/// what is shown on all other channels stays.
pub fn a_step_reads_what_is_shown()
    ensures reply { (m : Machine) (c : Command) (command : ReadingCommand) → reading_command c.operation c.le ≡ Some command
        → IsReadable (base m c.channel)
        → (stepped m (a_command c)).reply ≡ read_reply (shown_on m c.channel) command }
    ensures after { (m : Machine) (c : Command) (session : Session) (command : ReadingCommand) → reading_command c.operation c.le ≡ Some command
        → session_of m c.channel ≡ Some session → IsReadable (base m c.channel)
        → shown_on (stepped m (a_command c)).machine c.channel ≡ read_next (shown_on m c.channel) command }
    ensures others { (m : Machine) (c : Command) (command : ReadingCommand) (other : ℕ) → reading_command c.operation c.le ≡ Some command
        → ¬ (c.channel ≡ other) → shown_on (stepped m (a_command c)).machine other ≡ shown_on m other }
{}

/// A card reads what is shown: the step to octets that are a reading command, on a valid machine, answers from what is
/// shown on the channel that they name.
pub fn a_card_reads_what_is_shown()
    ensures { (m : Machine) (octets : List ℕ) (reading : ReadingCommand) → IsValidMachine m
        → AreCommand m octets (IsReadingCommand reading)
        → ReadsWhatIsShown m (channel_named octets) reading (step m octets) }
{}

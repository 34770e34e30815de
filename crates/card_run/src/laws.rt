// Laws on runs of the program over a card's life. Each is the contract of a function that does nothing.
ghost use Rattle.std.specs.Prelude.{List, Some, IsSome, true, false, ℕ, ◌++◌, ◌≡◌, ◌⊎◌};
ghost use Rattle.eeprom.specs.Chip.{Chip};
ghost use Rattle.scql_model.specs.Database.{Database};
ghost use Rattle.scql_model.specs.Heard.{IsLawful};
ghost use Rattle.scql_model.specs.Lines.{command_lines};
ghost use Rattle.scql_model.specs.Lives.{AreRuns, IsFolded, IsLife, PowerCycle, Run, after_all, life_commits};
ghost use Rattle.scql_model.specs.Machine.{start};
ghost use Rattle.scql_model.specs.Opens.{Opens};
ghost use Rattle.scql_model.specs.Tries.{IsRestoredBetween, SparesTries};
ghost use Rattle.card_run.specs.Beginning.{Begins, EndsUnread};
ghost use Rattle.card.specs.Opened.{IsOpenTo};
ghost use Rattle.card_run.specs.Checking.{Checks};
ghost use Rattle.program.specs.Ends.{AllFaults};
ghost use Rattle.card_run.specs.Living.{CardState, IsCycle, MakesAndLives, ReadInEach, card_lines};
ghost use Rattle.card_run.specs.Loading.{Loads};
ghost use Rattle.card_run.specs.Migrating.{Migrates};
ghost use Rattle.card_run.specs.Run.{RunsLines};
ghost use Rattle.card_run.specs.Statements.{opened, term_lines, was_refused};

use crate::words::Form;
use program::Status;

/// A run that meets its clause of `run_card`, over an image that opens to a database, is a power cycle of a card's life at each of its moments,
/// in whatever form: where power is lost, and at its end. It is so where what was given is told, and in `apdu` and `term` what the source has left.
/// A run of `new` makes its card, and is one from then on.
pub fn a_run_is_a_power_cycle<T, X>()
    ensures commands { (chip : X → Chip) (eeprom : X → ℕ) (status : Status) (source after : T) (input left : List ℕ) (old new : X) (was now : AllFaults) (db : Database)
        → (opens : IsOpenTo (chip old) db) → IsSome (chip new).still.given
        → RunsLines chip eeprom command_lines (λ m. false) start Form.Apdu status source after (Some input) (Some left) old new was now
        → IsCycle Form.Apdu db status input left opens.0 (chip old) (chip new) }
    ensures statements { (chip : X → Chip) (eeprom : X → ℕ) (status : Status) (source after : T) (input left : List ℕ) (old new : X) (was now : AllFaults) (db : Database)
        → (opens : IsOpenTo (chip old) db) → IsSome (chip new).still.given
        → RunsLines chip eeprom term_lines was_refused opened Form.Term status source after (Some input) (Some left) old new was now
        → IsCycle Form.Term db status input left opens.0 (chip old) (chip new) }
    ensures made { (chip : X → Chip) (eeprom : X → ℕ) (n : ℕ) (status : Status) (source after : T) (input left : List ℕ) (old new : X) (was now : AllFaults) (db : Database)
        → Begins (Form.New n) (chip old) db → IsSome (chip new).still.given
        → RunsLines chip eeprom command_lines (λ m. false) start (Form.New n) status source after (Some input) (Some left) old new was now
        → EndsUnread (Form.New n) status source after (chip old) (chip new) ⊎ MakesAndLives n db status input left (chip old) (chip new) }
    ensures load { (rows seed : ℕ) (status : Status) (source after : T) (input left : List ℕ) (old new : Chip) (was now : AllFaults) (db : Database)
        → (opens : IsOpenTo old db) → IsSome new.still.given → Loads rows seed status source after old new was now
        → IsCycle (Form.Load rows seed) db status input left opens.0 old new }
    ensures check { (status : Status) (source after : T) (input left : List ℕ) (old new : Chip) (was now : AllFaults) (db : Database)
        → (opens : IsOpenTo old db) → Checks status source after old new was now → IsCycle Form.Check db status input left opens.0 old new }
    ensures migrate { (status : Status) (source after : T) (input left : List ℕ) (old new : Chip) (was now : AllFaults) (db : Database)
        → (opens : IsOpenTo old db) → IsSome new.still.given → Migrates status source after old new was now
        → IsCycle Form.Migrate db status input left opens.0 old new }
{}

/// A card's life over runs of all forms, each ended by a loss of power or not, from the database to which its first image opens: it is the fold of one
/// prefix of commits for each power cycle, and at each opening the card starts with the database after all commits before, with no transaction open. In each power cycle reading commands and
/// SELECTs are answered by what is shown. No four commits of a life lower the tries of one user without one between them that restores these.
pub fn a_card_lives_as_one_machine()
    ensures lawful { IsLawful card_lines }
    ensures spares { SparesTries card_lines }
    ensures folded { (db : Database) (image : List ℕ) (cycles : List (PowerCycle CardState))
        → Opens image db → IsLife card_lines image cycles → IsFolded card_lines db image cycles }
    ensures read { (image : List ℕ) (cycles : List (PowerCycle CardState)) → IsLife card_lines image cycles → ReadInEach cycles }
    ensures restored { (db : Database) (image : List ℕ) (runs : List (Run CardState)) (stamp : ℕ) (before stretch after : List Database)
        → Opens image db → AreRuns card_lines db runs → life_commits card_lines runs ≡ before ++ (stretch ++ after)
        → IsRestoredBetween stamp (after_all db before) stretch }
{}

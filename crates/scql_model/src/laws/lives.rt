// Laws on a card's whole life: the state at each opening, and the tries of its users.
ghost use Rattle.std.specs.Prelude.{List, ℕ, ◌++◌, ◌≡◌, ◌≤◌, ◌∷◌};
ghost use Rattle.scql_base.specs.Words.{tries_left};
ghost use Rattle.scql_model.specs.Accepting.{channel_named};
ghost use Rattle.scql_model.specs.Answering.{AreCommand, ComparesRight};
ghost use Rattle.scql_model.specs.Database.{Database, IsValid};
ghost use Rattle.scql_model.specs.Heard.{IsLawful};
ghost use Rattle.scql_model.specs.Lines.{Language, command_lines};
ghost use Rattle.scql_model.specs.Lives.{AreRuns, IsFolded, IsLife, PowerCycle, Run, after_all, life_commits};
ghost use Rattle.scql_model.specs.Machine.{Machine, start};
ghost use Rattle.scql_model.specs.Opens.{Opens};
ghost use Rattle.scql_model.specs.Step.{step};
ghost use Rattle.scql_model.specs.Tries.{IsGuardedMachine, IsRestoredBetween, LowersPresented, SparesTries, how_many, restores};

/// A life of any length, in any language of lines, is the fold of one prefix of commits for each of its power cycles: those of the lines that were
/// heard, and maybe some of the line after them. At each opening the card is as it starts with the database after all commits before.
pub fn a_life_is_a_fold<S>()
    ensures folded { (language : Language S) (db : Database) (image : List ℕ) (cycles : List (PowerCycle S))
        → Opens image db → IsLife language image cycles → IsFolded language db image cycles }
    ensures opened { (language : Language S) (db : Database) (before : List (Run S)) (run : Run S) (after : List (Run S))
        → AreRuns language db (before ++ run ∷ after) → language.machine run.first ≡ start (after_all db (life_commits language before)) }
{}

/// Among the commits of a life no four lower the tries of one user without one between them that restores these: in any language whose lines
/// spare tries, as command lines do. A wrong secret lowers them, and nothing but VERIFY with the right secret restores them. So between two right
/// secrets at most three wrong ones of a user are answered by 63CX, whatever the losses of power.
pub fn no_four_commits_of_a_life_lower_a_user_unrestored<S>()
    ensures any { (language : Language S) (db : Database) (runs : List (Run S)) (stamp : ℕ) (before stretch after : List Database)
        → IsLawful language → SparesTries language → IsValid db → AreRuns language db runs → life_commits language runs ≡ before ++ (stretch ++ after)
        → IsRestoredBetween stamp (after_all db before) stretch }
    ensures commands { SparesTries command_lines }
    ensures of_commands { (db : Database) (runs : List (Run Machine)) (stamp : ℕ) (before stretch after : List Database)
        → IsValid db → AreRuns command_lines db runs → life_commits command_lines runs ≡ before ++ (stretch ++ after)
        → IsRestoredBetween stamp (after_all db before) stretch }
    ensures wrong { (m : Machine) (octets : List ℕ) (n : ℕ)
        → (step m octets).reply.word ≡ tries_left n → LowersPresented m (channel_named octets) (step m octets).commits }
    ensures right { (m : Machine) (octets : List ℕ) (stamp : ℕ)
        → IsGuardedMachine stamp m → 1 ≤ how_many (restores stamp) m.committed (step m octets).commits
        → AreCommand m octets (ComparesRight stamp) }
{}

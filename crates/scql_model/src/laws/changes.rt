// Laws on changes of a database.
ghost use Rattle.std.specs.Prelude.{Bool, List, Ok, Option, if◌then◌else◌, slice_index, ℕ, ◌+◌, ◌<◌, ◌≡◌, ◌≤◌};
ghost use Rattle.std.specs.List.{AllByRecursion};
ghost use Rattle.scql_base.specs.declared.cursor.Cursor.{Cursor};
ghost use Rattle.scql_base.specs.declared.operation.Command.{Command};
ghost use Rattle.scql_base.specs.declared.operation.Operation.{Operation};
ghost use Rattle.scql_base.specs.declared.row.TheConstants.Row.{LARGEST};
ghost use Rattle.scql_base.specs.declared.words.Actor.{Actor};
ghost use Rattle.scql_model.specs.Changing.{edits_of, with_edits};
ghost use Rattle.scql_model.specs.Creating.{IsActorOf};
ghost use Rattle.scql_model.specs.Database.{Database, IsValid};
ghost use Rattle.scql_model.specs.Edits.{Edit, applied, takes_stamp};
ghost use Rattle.scql_model.specs.Form.{a_command, form_of};
ghost use Rattle.scql_model.specs.Machine.{Chain, Machine, start};
ghost use Rattle.scql_model.specs.Operations.{operations};
ghost use Rattle.scql_model.specs.Step.{step};
ghost use Rattle.scql_model.specs.ValidMachine.{IsValidMachine};
ghost use Rattle.scql_model.specs.WellFormed.{FitsCard, HasForm};

/// Each operation makes a valid database of a valid one, for an actor of the database and with fields of the operation's form that fit the card.
/// What is read as a command has that form and fits. The next stamp is one more where a stamp is taken, and else it stays.
pub fn a_change_keeps_a_database_valid()
    ensures valid { (db new : Database) (actor : Actor) (cursor : Option Cursor) (operation : Operation) (edits : List Edit)
        → IsValid db → IsActorOf db actor → HasForm operation → FitsCard db.limit operation
        → edits_of db actor cursor operation ≡ Ok edits → with_edits db edits ≡ Ok new → IsValid new }
    ensures read { (octets : List ℕ) (channels : List Bool) (chain : ℕ → Option Chain) (limit : ℕ) (c : Command)
        → ((i : ℕ) → slice_index octets i < 256) → limit ≤ LARGEST → form_of operations octets channels chain limit ≡ a_command c
        → HasForm c.operation × FitsCard limit c.operation }
    ensures next { (db : Database) (actor : Actor) (cursor : Option Cursor) (operation : Operation) (edits : List Edit)
        → edits_of db actor cursor operation ≡ Ok edits
        → (applied db edits).next ≡ (if takes_stamp edits then db.next + 1 else db.next) }
{}

/// A step of a valid machine leaves a valid one, and commits valid databases; and a card begins with one. In a valid machine each cursor stands
/// on the database that its channel reads, and octets are pending only where there is a cursor. Of chains it says nothing.
pub fn a_step_keeps_a_machine_valid()
    ensures start { (db : Database) → IsValid db → IsValidMachine (start db) }
    ensures machine { (m : Machine) (octets : List ℕ) → ((i : ℕ) → slice_index octets i < 256) → IsValidMachine m
        → IsValidMachine (step m octets).machine }
    ensures commits { (m : Machine) (octets : List ℕ) → ((i : ℕ) → slice_index octets i < 256) → IsValidMachine m
        → AllByRecursion IsValid (step m octets).commits }
{}

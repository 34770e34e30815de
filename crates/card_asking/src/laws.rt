// Laws over what a plan of a SELECT gives over a link. Each is the contract of a function that does nothing.
ghost use Rattle.std.specs.Prelude.{◌≡◌, ℕ, Bool, true, List, None};
ghost use Rattle.scql_base.specs.declared.condition.Condition.{Condition};
ghost use Rattle.scql_base.specs.declared.operation.Command.{Command};
ghost use Rattle.scql_model.specs.Machine.{Machine};
ghost use Rattle.scql_model.specs.Matching.{Values};
ghost use Rattle.scql_model.specs.Sessions.{is_channel_open};
ghost use Rattle.script.specs.declared.statement.Statement.{Statement};
ghost use Rattle.script.specs.declared.statement.Statement.TheVariants.{Select};
ghost use Rattle.script.specs.Commands.{CanBeSent};
ghost use Rattle.planner.specs.declared.closing.Closing.{Closing};
ghost use Rattle.planner.specs.declared.step.Step.TheVariants.{Row, Done};
ghost use Rattle.planner.specs.Planned.{Planned, next_of, started};
ghost use Rattle.planner.specs.Readings.{IsSelect};
ghost use Rattle.card_asking.specs.Giving.{AreAllGiven, GivesRows, GivesMeaning, GivesShown, IsNextRow};

use card_link::CardLink;

/// At its first step a plan of a SELECT is to give the rows of the SELECT's meaning, to close as that does, and to leave the link at its machine.
pub fn a_select_is_to_give_its_rows<L: CardLink>()
    ensures { (m : Machine) (channel : ℕ) (s : Statement) (inside : Bool) (now : L) → IsSelect s → CanBeSent channel s → L.is_at now m
        → GivesMeaning L.is_at m channel s (next_of None (started s channel inside)).plan (next_of None (started s channel inside)).step now }
{}

/// At its first step a plan of a SELECT on an open channel is to give the rows that are shown to the channel, or DECLARE's refusal.
pub fn a_select_is_to_give_what_is_shown<L: CardLink>()
    ensures { (m : Machine) (channel : ℕ) (object : List ℕ) (columns : List (List ℕ)) (conditions : List Condition) (inside : Bool) (now : L) → is_channel_open m channel ≡ true
        → CanBeSent channel (Select object columns conditions) → L.is_at now m
        → (let turn = next_of None (started (Select object columns conditions) channel inside) in GivesShown L.is_at m channel object columns conditions turn.plan turn.step now) }
{}

/// A step with a row has the first of the rows that are left.
pub fn a_row_is_the_next<L: CardLink>()
    ensures { (m : Machine) (closing : Closing) (last : Machine) (rows : List Values) (p : Planned) (c : Command) (now : L) → GivesRows L.is_at m closing last rows p (Row c) now
        → IsNextRow rows p.row }
{}

/// At the last step all rows were given, it closes as it was to, and the link is at the machine that it was to be left at.
pub fn all_rows_are_given<L: CardLink>()
    ensures { (m : Machine) (closing : Closing) (last : Machine) (rows : List Values) (p : Planned) (closed : Closing) (now : L) → GivesRows L.is_at m closing last rows p (Done closed) now
        → AreAllGiven L.is_at closing last rows closed now }
{}

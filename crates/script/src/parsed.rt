// A statement as its grammar has it, before its size is looked at.
ghost use Rattle.std.specs.Prelude.{◌≡◌};
ghost use Rattle.script.specs.Grammar as grammar;
ghost use Rattle.script.specs.Parsed.{IsRead};

use crate::Statement;
use crate::rules::put;
use crate::tokens::Tokens;
use scql_base::{Operation, Row};

/// What was read: a statement, which stands in its place, or one of which a row is known to be too large.
#[derive(Clone, Copy, PartialEq, Eq, Debug)]
pub(crate) enum Parsed {
    Held,
    TooLarge,
}

impl<'a> Tokens<'a> {
    /// The one statement that all tokens are.
    #[tactic(auto, unfolding(crate::specs::Grammar::whole, crate::specs::Grammar::at_end))]
    pub(crate) fn whole(&mut self, place: &mut Statement) -> Option<Parsed>
        ensures statement { IsRead result place.new (grammar.whole self.old).0 }
        ensures rest { self.new ≡ (grammar.whole self.old).1 }
    {
        let parsed = self.statement(place)?;
        self.takes(b";");
        if self.is_at_end() { Some(parsed) } else { None }
    }

    #[tactic(auto, unfolding(crate::specs::Grammar::statement))]
    fn statement(&mut self, place: &mut Statement) -> Option<Parsed>
        ensures statement { IsRead result place.new (grammar.statement self.old).0 }
        ensures rest { self.new ≡ (grammar.statement self.old).1 }
    {
        if self.takes(b"INSERT") {
            return self.insert(place);
        }
        self.about_rows(place)?;
        Some(Parsed::Held)
    }

    #[inline(never)]
    #[tactic(auto, unfolding(crate::specs::Grammar::insert))]
    fn insert(&mut self, place: &mut Statement) -> Option<Parsed>
        ensures statement { IsRead result place.new (grammar.insert self.old).0 }
        ensures rest { self.new ≡ (grammar.insert self.old).1 }
    {
        self.expect(b"INTO")?;
        let table = self.name()?;
        self.expect(b"VALUES")?;
        self.expect(b"(")?;
        let mut row = Some(Row::new());
        self.values(&mut row)?;
        self.expect(b")")?;
        match row {
            Some(row) => {
                put(Operation::Insert { table, row }, place)?;
                Some(Parsed::Held)
            }
            None => Some(Parsed::TooLarge),
        }
    }
}

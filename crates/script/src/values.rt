// The values of an INSERT, which may be too many octets for a row.
ghost use Rattle.std.specs.Prelude.{◌≡◌, ◌<◌, [], ◌∷◌, ◌++◌, IfSome, Some, length, option_and_then, option_map};
ghost use Rattle.script.specs.Grammar as grammar;
ghost use Rattle.script.specs.Parsed.{row_of};

use crate::tokens::Tokens;
use scql_base::Row;

impl<'a> Tokens<'a> {
    /// One to 15 literals, as a row where they aren't too wide for one.
    pub(crate) fn values(&mut self, row: &mut Option<Row>) -> Option<()>
        requires { row.old ≡ Some [] }
        ensures row { option_map (λ _. row.new) result ≡ option_map row_of (grammar.literals self.old).0 }
        ensures rest { self.new ≡ (grammar.literals self.old).1 }
    {
        self.with_value(row)?;
        let mut count = 1;
        while count < Row::MOST && self.takes(b",") {
            self.with_value(row)?;
            count += 1;
        }
        Some(())
    }

    // Another value, behind those of a row.
    fn with_value(&mut self, row: &mut Option<Row>) -> Option<()>
        requires { IfSome row.old (λ values. length values < 15) }
        ensures row { option_map (λ _. row.new) result ≡ option_map (λ value. option_and_then (λ values. row_of (values ++ value ∷ [])) row.old) (grammar.literal self.old).0 }
        ensures rest { self.new ≡ (grammar.literal self.old).1 }
    {
        let value = self.literal()?;
        let fits = match row {
            Some(row) => row.push(value.as_slice()).is_ok(),
            None => true,
        };
        if !fits {
            *row = None;
        }
        Some(())
    }
}

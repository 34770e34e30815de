// Reads the query of a line.
ghost use Rattle.std.specs.Prelude.{◌≡◌, IfOk, IfErr, IfSome};
ghost use Rattle.std.specs.List.{AllByRecursion};
ghost use Rattle.query.specs.Facts.{AreFetched, AreTwoOrThree, CanBeAsked, HasDifferentColumns, HasPlace, IsFetched, StandsFor};
ghost use Rattle.script.specs.Tokens.{tokens_of};
ghost use Rattle.query.specs.Grammar.{whole};
ghost use Rattle.query.specs.Line as lines;

use crate::Query;
use crate::grammar::whole;
use crate::resolving::resolve;
use script::{ScriptFault, Tokens};
use taken_line::TakenLine;

impl Query {
    /// The query that a line is. A line that asks for nothing is at fault too.
    ///
    /// `At` comes exactly where the line isn't in the grammar of queries, and where its names stand for nothing: a name stands in
    /// FROM twice, a column's object doesn't stand there, or the line names a 16th column of one object. `TooLarge` never comes.
    pub fn read(line: TakenLine<'_>) -> Result<Query, ScriptFault>
        ensures query { result ≡ lines.query_of line.entry.octets.now }
        // The objects and the columns are those that the line names in their places.
        ensures names { IfOk result (λ query. IfSome (whole (tokens_of line.entry.octets.now)).0 (λ written. StandsFor written query)) }
        ensures place { IfErr result HasPlace }
        ensures objects { IfOk result (λ query. AreTwoOrThree query.objects) }
        ensures different { IfOk result (λ query. AllByRecursion HasDifferentColumns query.objects) }
        // Each object's SELECT can be sent on each channel.
        ensures sendable { IfOk result (λ query. AllByRecursion CanBeAsked query.objects) }
        ensures selected { IfOk result (λ query. AllByRecursion (IsFetched query.objects) query.selected) }
        ensures equalities { IfOk result (λ query. AllByRecursion (AreFetched query.objects) query.equalities) }
        ensures order { IfOk result (λ query. AllByRecursion (IsFetched query.objects) query.order) }
    {
        read_query(line)
    }
}

fn read_query(line: TakenLine<'_>) -> Result<Query, ScriptFault>
    ensures { result ≡ lines.query_of line.entry.octets.now }
{
    let mut tokens = Tokens::new(line.octets);
    let Some(written) = whole(&mut tokens) else {
        return Err(fault_at(line, tokens.left()));
    };
    match resolve(&written) {
        Ok(query) => Ok(query),
        Err(fault) => Err(fault_at(line, fault.left)),
    }
}

// The fault at the place that so many octets of the line are from on.
fn fault_at(line: TakenLine<'_>, left: usize) -> ScriptFault
    ensures { result ≡ lines.fault_at line.entry.octets.now left }
{
    ScriptFault::At {
        place: line.octets.len().saturating_sub(left) as u16,
    }
}

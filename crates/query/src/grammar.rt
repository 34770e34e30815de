// The rules of a query's grammar. Each is a function over the tokens of a line, as those of a statement's grammar are.
ghost use Rattle.std.specs.Prelude.{◌≡◌, ◌<◌, ◌≤◌, ◌+◌, [], IfSome, length, option_map};
ghost use Rattle.query.specs.Grammar as grammar;
ghost use Rattle.query.specs.declared.query.TheConstants.Query.{MOST_COLUMNS, MOST_EQUALITIES};

use crate::Query;
use crate::blank::Blank;
use crate::written::{Named, NamedColumns, Pair, Pairs, Source, Sources, WrittenQuery};
use arrayvec::ArrayVec;
use script::Tokens;

#[tactic(auto, unfolding(crate::specs::Grammar::named, crate::specs::Grammar::here))]
fn named(tokens: &mut Tokens) -> Option<Named>
    ensures { grammar.named tokens.old ≡ (result, tokens.new) }
{
    let left = tokens.left();
    let object = tokens.name()?;
    tokens.expect(b".")?;
    let column = tokens.name()?;
    Some(Named {
        object,
        column,
        left,
    })
}

#[tactic(auto, unfolding(crate::specs::Grammar::with_named))]
fn with_named(tokens: &mut Tokens, mut columns: NamedColumns) -> Option<NamedColumns>
    requires { length columns.items < MOST_COLUMNS }
    ensures value { grammar.with_named columns.items tokens.old ≡ (option_map (λ longer. longer.items) result, tokens.new) }
    ensures grown { IfSome result (λ longer. length longer.items ≡ length columns.items + 1) }
{
    columns.push(named(tokens)?);
    Some(columns)
}

// One to 15 columns.
fn columns(tokens: &mut Tokens) -> Option<NamedColumns>
    ensures { grammar.columns tokens.old ≡ (option_map (λ columns. columns.items) result, tokens.new) }
{
    let mut columns = with_named(tokens, ArrayVec::new_in(Blank))?;
    while columns.len() < Query::MOST_COLUMNS && tokens.takes(b",") {
        columns = with_named(tokens, columns)?;
    }
    Some(columns)
}

#[tactic(auto, unfolding(crate::specs::Grammar::source, crate::specs::Grammar::here))]
fn source(tokens: &mut Tokens) -> Option<Source>
    ensures { grammar.source tokens.old ≡ (result, tokens.new) }
{
    let left = tokens.left();
    let object = tokens.name()?;
    Some(Source { object, left })
}

// Two or three objects.
#[tactic(auto, unfolding(crate::specs::Grammar::sources))]
fn sources(tokens: &mut Tokens) -> Option<Sources>
    ensures { grammar.sources tokens.old ≡ (option_map (λ sources. sources.items) result, tokens.new) }
{
    let mut sources = ArrayVec::new_in(Blank);
    sources.push(source(tokens)?);
    tokens.expect(b",")?;
    sources.push(source(tokens)?);
    if tokens.takes(b",") {
        sources.push(source(tokens)?);
    }
    Some(sources)
}

#[tactic(auto, unfolding(crate::specs::Grammar::with_pair))]
fn with_pair(tokens: &mut Tokens, mut pairs: Pairs) -> Option<Pairs>
    requires { length pairs.items < MOST_EQUALITIES }
    ensures value { grammar.with_pair pairs.items tokens.old ≡ (option_map (λ longer. longer.items) result, tokens.new) }
    ensures grown { IfSome result (λ longer. length longer.items ≡ length pairs.items + 1) }
{
    let first = named(tokens)?;
    tokens.expect(b"=")?;
    let second = named(tokens)?;
    pairs.push(Pair { first, second });
    Some(pairs)
}

// One to 8 pairs of columns that are to be equal.
fn pairs(tokens: &mut Tokens) -> Option<Pairs>
    ensures { grammar.pairs tokens.old ≡ (option_map (λ pairs. pairs.items) result, tokens.new) }
{
    let mut pairs = with_pair(tokens, ArrayVec::new_in(Blank))?;
    while pairs.len() < Query::MOST_EQUALITIES && tokens.takes(b"AND") {
        pairs = with_pair(tokens, pairs)?;
    }
    Some(pairs)
}

// The pairs behind WHERE, or none where there is no WHERE.
#[tactic(auto, unfolding(crate::specs::Grammar::where_pairs))]
fn where_pairs(tokens: &mut Tokens) -> Option<Pairs>
    ensures { grammar.where_pairs tokens.old ≡ (option_map (λ pairs. pairs.items) result, tokens.new) }
{
    if tokens.takes(b"WHERE") {
        pairs(tokens)
    } else {
        Some(ArrayVec::new_in(Blank))
    }
}

// The columns behind ORDER BY, or none where there is no ORDER.
#[tactic(auto, unfolding(crate::specs::Grammar::order_by))]
fn order_by(tokens: &mut Tokens) -> Option<NamedColumns>
    ensures { grammar.order_by tokens.old ≡ (option_map (λ columns. columns.items) result, tokens.new) }
{
    if tokens.takes(b"ORDER") {
        tokens.expect(b"BY")?;
        columns(tokens)
    } else {
        Some(ArrayVec::new_in(Blank))
    }
}

#[tactic(auto, unfolding(crate::specs::Grammar::query))]
fn query(tokens: &mut Tokens) -> Option<WrittenQuery>
    ensures { grammar.query tokens.old ≡ (result, tokens.new) }
{
    tokens.expect(b"SELECT")?;
    let selected = columns(tokens)?;
    tokens.expect(b"FROM")?;
    let sources = sources(tokens)?;
    let pairs = where_pairs(tokens)?;
    let order = order_by(tokens)?;
    Some(WrittenQuery {
        selected,
        sources,
        pairs,
        order,
    })
}

/// The whole line, which one `;` may end.
#[tactic(auto, unfolding(crate::specs::Grammar::whole, crate::specs::Grammar::at_end))]
pub(crate) fn whole(tokens: &mut Tokens) -> Option<WrittenQuery>
    ensures { grammar.whole tokens.old ≡ (result, tokens.new) }
{
    let written = query(tokens)?;
    tokens.takes(b";");
    if tokens.is_at_end() {
        Some(written)
    } else {
        None
    }
}

// Lines of statements, and a terminal that carries them out on a card.
ghost use Rattle.std.specs.Prelude.{◌≡◌, option_map, IsTrue};
ghost use Rattle.scql_model.specs.Machine.{start};
ghost use Rattle.terminal.specs.Holding.{Sits};
ghost use Rattle.person.specs.Showing.{ShowsSome};
ghost use Rattle.card.specs.Card.{IsReady, IsAt};
ghost use Rattle.card.specs.LiveCard.{IsReadyAt, LastsOn};
ghost use Rattle.program.specs.Ends.{AllFaults};
ghost use Rattle.line_run.specs.Causes.{Faults};
ghost use Rattle.card_run.specs.Commands.{LeavesLine};
ghost use Rattle.card_run.specs.Run.{RunsOpened};
ghost use Rattle.card_run.specs.Statements.{EndsStatement, Greets, Sitting, heard_as, opened, term_lines, was_refused};

use card::{Card, LiveCard};
use eeprom::{Bench, Outlet, Source};
use guide::{Cells, Guide, Occasion, Statements, Why};
use line_run::{LineStop, Responder, run_lines};
use person::{Person, Presence};
use program::Status;
use taken_line::TakenLine;
use terminal::{LineEnd, Refusal, Terminal};

/// A terminal with its card, which is asked by statements, whether one was refused so far, and a person who is told of them.
#[derive(Drop)]
pub(crate) struct StatementCard<'a, 'b, B: Bench, P: Person> {
    pub(crate) terminal: &'b mut Terminal,
    pub(crate) card: LiveCard<'a, B>,
    pub(crate) refused: bool,
    pub(crate) guide: &'b mut Guide<Statements>,
    pub(crate) person: &'b mut P,
}

impl<'a, 'b, B: Bench, P: Person> StatementCard<'a, 'b, B, P> {
    // The card, and the person, as lines have left them.
    fn into_parts(self) -> (LiveCard<'a, B>, &'b mut P)
        ensures card { result.0 ≡ self.entry.card }
        ensures name { result.1.ghost_name ≡ self.entry.person.ghost_name }
        ensures person { result.1.now ≡ self.entry.person.now }
    {
        (self.card, self.person)
    }
}

impl<'a, 'b, B: Bench, P: Person> Responder for StatementCard<'a, 'b, B, P> {
    ghost use Rattle.std.specs.Prelude.{◌≡◌, IsTrue, false};
    ghost use Rattle.std.proofs.Common.{◌∙◌, refl};
    ghost use Rattle.person.specs.Showing.{ShowsSome};
    ghost use Rattle.guide.proofs.Told.{told-none, told-then};
    ghost use Rattle.card.specs.LiveCard.{IsReadyAt, LastsOn};
    ghost use Rattle.card.specs.LiveCardLaws.{lasts-same, lasts-then};
    ghost use Rattle.card_run.specs.Statements.{Sitting, SitsSo, term_lines};
    ghost use Rattle.card_run.specs.ResponderLaws.{term-lawful, sitting-over};

    ghost State = { Sitting };

    ghost language = { term_lines };

    ghost is_at = { λ r sitting. SitsSo (λ l m. IsReadyAt l.card (B.chip l.bench) m) r.terminal.now r.card r.refused sitting };

    ghost is_ready = { λ r. IsTrue r.card.card.live };

    ghost chip = { λ r. B.chip r.card.bench };

    ghost faults = { λ r. record { eeprom = B.faults r.card.bench; outlet = B.sink_faults r.card.bench } };

    ghost takes_memory = { false };

    // The person is the same still, and was shown some text.
    ghost goes_on = { λ old new. LastsOn B.chip old.card new.card × ShowsSome P.lost P.shown old.person.now new.person.now × (new.person.ghost_name ≡ old.person.ghost_name) };

    fn answer_line(&mut self, line: Option<TakenLine<'_>>) -> Result<(), LineStop> {
        self.guide.tell(Occasion::Line { line }, self.person);
        let refusal = answer_line(self.terminal, &mut self.card, line)?;
        self.refused |= refusal.is_some();
        let outcome = Occasion::Outcome {
            line,
            why: refusal.map(why_of),
            cells: None,
        };
        self.guide.tell(outcome, self.person);
        Ok(())
    }

    ghost lawful = { term-lawful };

    ghost over = { λ r ready sitting at. sitting-over r.card.card (B.chip r.card.bench) sitting at.sits.at };

    ghost goes_on_same = { λ r. (lasts-same B.chip r.card, told-none P.lost P.shown r.person.now, refl) };

    ghost goes_on_then = { λ old mid new ready first second.
        (lasts-then B.chip old.card mid.card new.card first.0 second.0, told-then P.lost P.shown old.person.now mid.person.now new.person.now first.1 second.1, second.2 ∙ first.2) };
}

/// Answers the lines of the input as statements, and tells a person of them.
#[inline(never)]
pub(crate) fn answer_statements<S: Source, B: Bench, P: Person>(
    card: Card,
    source: &mut S,
    bench: &mut B,
    person: &mut P,
) -> Status
    requires { IsReady card (B.chip bench.old) }
    ensures run { RunsOpened B.chip B.faults term_lines was_refused (λ db. IsAt card (B.chip bench.old) (start db)) opened card.store.chains.cells result (S.left source.old) (S.left source.new) bench.old bench.new
        (record { eeprom = B.faults bench.old; source = S.source_faults source.old; outlet = B.sink_faults bench.old })
        (record { eeprom = B.faults bench.new; source = S.source_faults source.new; outlet = B.sink_faults bench.new }) }
    ensures told { ShowsSome P.lost P.shown person.old person.new }
{
    let presence = person.presence();
    let mut guide = Guide::new(Statements::new(), presence);
    greet(&card, bench, presence, &mut guide, person);
    let mut terminal = Terminal::new();
    let card = LiveCard::new(card, bench);
    let statements = StatementCard {
        terminal: &mut terminal,
        card,
        refused: false,
        guide: &mut guide,
        person,
    };
    let (end, statements) = run_lines(source, statements);
    let status = Status::of_input(end, statements.refused);
    let (card, _person) = statements.into_parts();
    card.into_bench();
    let whole = matches!(status, Status::Done | Status::Refused);
    guide.tell(Occasion::End { whole }, person);
    status
}

// Greets a person, who is told how many cells of the card are used. It isn't inlined, so that what is put together for it has its place
// only until it is said.
#[inline(never)]
fn greet<B: Bench, P: Person>(
    card: &Card,
    bench: &mut B,
    presence: Presence,
    guide: &mut Guide<Statements>,
    person: &mut P,
)
    requires { IsReady card.now (B.chip bench.old) }
    ensures { Greets P.lost P.shown bench.old bench.new person.old person.new }
{
    // They are counted only where somebody is there who is told.
    let counts = if presence == Presence::Away {
        None
    } else {
        card.counts(bench).ok()
    };
    let cells = match counts {
        None => None,
        Some(counts) => Some(Cells {
            used: counts.weight,
            all: counts.cells,
        }),
    };
    guide.tell(Occasion::Start { cells }, person);
}

// Why a line was refused, as a person is told.
fn why_of(refusal: Refusal) -> Why {
    match refusal {
        Refusal::Word { word } => Why::Word { word },
        Refusal::Fault { fault } => Why::Fault { fault },
        Refusal::TooLong => Why::TooLong,
    }
}

// Answers a whole line, and tells why it was refused, if it was.
fn answer_line<B: Bench>(
    terminal: &mut Terminal,
    card: &mut LiveCard<'_, B>,
    line: Option<TakenLine<'_>>,
) -> Result<Option<Refusal>, LineStop>
    requires live { IsTrue card.old.card.live }
    ensures ended { (sitting : Sitting) → Sits (λ l m. IsReadyAt l.card (B.chip l.bench) m) sitting.at terminal.old card.old
        → EndsStatement sitting (option_map (λ line. line.octets.now) line.entry) (λ next. Sits (λ l m. IsReadyAt l.card (B.chip l.bench) m) next.at terminal.new card.new) (B.chip card.old.bench) (B.chip card.new.bench) result }
    ensures leaves { LeavesLine (IsTrue card.new.card.live) (LastsOn B.chip card.old card.new)
        (record { eeprom = B.faults card.old.bench; outlet = B.sink_faults card.old.bench }) (record { eeprom = B.faults card.new.bench; outlet = B.sink_faults card.new.bench }) result }
{
    match line {
        Some(line) => heard(terminal.line(card, line)),
        None => heard(terminal.refuse_long_line(card)),
    }
}

fn heard(end: LineEnd) -> Result<Option<Refusal>, LineStop>
    ensures { result ≡ heard_as end }
{
    match end {
        LineEnd::Answered => Ok(None),
        LineEnd::Refused { why } => Ok(Some(why)),
        LineEnd::Mute => Err(LineStop::Eeprom),
        LineEnd::SinkFault => Err(LineStop::Outlet),
    }
}

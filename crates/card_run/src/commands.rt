// Lines of commands in hexadecimal, and a card that answers them.
ghost use Rattle.std.specs.Prelude.{◌≡◌, ◌≤◌, false, length, option_map, IfSome};
ghost use Rattle.scql_model.specs.Lines as model;
ghost use Rattle.scql_model.specs.Lines.{command_lines, longest_line};
ghost use Rattle.card.specs.Card.{IsReady, IsAt};
ghost use Rattle.line_run.specs.Causes.{Faults};
ghost use Rattle.program.specs.Ends.{AllFaults};
ghost use Rattle.card_run.specs.Commands.{AnswersContent, MayAnswer};
ghost use Rattle.card_run.specs.Run.{RunsOpened};

use crate::output::give;
use apdu::{LONGEST_COMMAND, LONGEST_REPLY_LINE, LineContent, Reply, read_line, write_reply};
use arrayvec::ArrayVec;
use card::{Card, Outcome};
use eeprom::{Bench, Source};
use line_run::{LineStop, Responder, run_lines};
use program::Status;
use scql_base::StatusWord;
use taken_line::TakenLine;

/// A card over its bench, which is asked by commands.
#[derive(Drop)]
pub(crate) struct CommandCard<'a, B: Bench> {
    pub(crate) card: Card,
    pub(crate) bench: &'a mut B,
    pub(crate) places: Places,
}

impl<'a, B: Bench> CommandCard<'a, B> {
    // The bench, as the card has left it.
    fn into_bench(self) -> &'a mut B
        ensures name { result.ghost_name ≡ self.entry.bench.ghost_name }
        ensures bench { result.now ≡ self.entry.bench.now }
    {
        self.bench
    }
}

/// Places for a command, and for the reply to it.
#[derive(Drop)]
pub(crate) struct Places {
    command: [u8; LONGEST_COMMAND],
    reply: ReplyPlace,
}

impl Places {
    fn new() -> Places {
        Places {
            command: [0; LONGEST_COMMAND],
            reply: ReplyPlace::new(),
        }
    }
}

/// A place for a reply, and for its text.
#[derive(Drop)]
pub(crate) struct ReplyPlace {
    reply: Reply,
    text: [u8; LONGEST_REPLY_LINE],
}

impl ReplyPlace {
    fn new() -> ReplyPlace {
        ReplyPlace {
            reply: Reply {
                body: ArrayVec::new(),
                word: StatusWord::DONE,
            },
            text: [0; LONGEST_REPLY_LINE],
        }
    }

    // The reply in hexadecimal, with a line feed.
    fn text(&mut self) -> &[u8]
        ensures { result.now ≡ model.reply_text self.old.reply }
    {
        let size = write_reply(&mut self.text, &self.reply);
        &self.text[..size]
    }
}

impl<'a, B: Bench> Responder for CommandCard<'a, B> {
    ghost use Rattle.std.specs.Prelude.{◌≡◌, false};
    ghost use Rattle.std.proofs.Common.{refl, ◌∙◌};
    ghost use Rattle.scql_model.specs.Machine.{Machine};
    ghost use Rattle.scql_model.specs.Lines.{command_lines};
    ghost use Rattle.scql_model.proofs.Hearing.{commands-lawful};
    ghost use Rattle.card.specs.Card.{IsReady, IsAt};
    ghost use Rattle.card.proofs.Leaving.{Opens-at};
    ghost use Rattle.card_run.specs.Behind.{StaysBehind};
    ghost use Rattle.card_run.specs.ResponderLaws.{stays-same, stays-then};

    ghost State = { Machine };

    ghost language = { command_lines };

    ghost is_at = { λ r m. IsAt r.card (B.chip r.bench.now) m };

    ghost is_ready = { λ r. IsReady r.card (B.chip r.bench.now) };

    ghost chip = { λ r. B.chip r.bench.now };

    ghost faults = { λ r. record { eeprom = B.faults r.bench.now; outlet = B.sink_faults r.bench.now } };

    ghost takes_memory = { false };

    // It is over the same bench still.
    ghost goes_on = { λ old new. (new.bench.ghost_name ≡ old.bench.ghost_name) × StaysBehind old.card new.card (B.chip old.bench.now) (B.chip new.bench.now) };

    fn answer_line(&mut self, line: Option<TakenLine<'_>>) -> Result<(), LineStop> {
        let octets = TakenLine::octets_of(line);
        answer_line(&mut self.card, self.bench, octets, &mut self.places)
    }

    ghost lawful = { commands-lawful };

    ghost over = { λ r ready m at. Opens-at r.card (B.chip r.bench.now) m ready at };

    ghost goes_on_same = { λ r. (refl, stays-same r.card (B.chip r.bench.now)) };

    ghost goes_on_then = { λ old mid new ready first second.
        (second.0 ∙ first.0, stays-then old.card mid.card new.card (B.chip old.bench.now) (B.chip mid.bench.now) (B.chip new.bench.now) ready first.1 second.1) };
}

/// Answers the lines of the input as commands.
#[inline(never)]
pub(crate) fn answer_commands<S: Source, B: Bench>(
    card: Card,
    source: &mut S,
    bench: &mut B,
) -> Status
    requires { IsReady card (B.chip bench.old) }
    ensures run { RunsOpened B.chip B.faults command_lines (λ m. false) (λ m. IsAt card (B.chip bench.old) m) (λ m. m) card.store.chains.cells result (S.left source.old) (S.left source.new) bench.old bench.new
        (record { eeprom = B.faults bench.old; source = S.source_faults source.old; outlet = B.sink_faults bench.old })
        (record { eeprom = B.faults bench.new; source = S.source_faults source.new; outlet = B.sink_faults bench.new }) }
    ensures never_refused { ¬ result ≡ Status.Refused }
{
    let commands = CommandCard {
        card,
        bench,
        places: Places::new(),
    };
    let (end, commands) = run_lines(source, commands);
    commands.into_bench();
    // No command is refused in the sense of a run: each has its answer.
    Status::of_input(end, false)
}

// Answers a whole line.
fn answer_line<B: Bench>(
    card: &mut Card,
    bench: &mut B,
    line: Option<&[u8]>,
    places: &mut Places,
) -> Result<(), LineStop>
    requires { MayAnswer card.old (B.chip bench.old) (IfSome line (λ octets. length octets.now ≤ longest_line)) }
    ensures { AnswersContent (model.content_of (option_map (λ octets. octets.now) line.entry)) card.old card.new (B.chip bench.old) (B.chip bench.new)
        (record { eeprom = B.faults bench.old; outlet = B.sink_faults bench.old }) (record { eeprom = B.faults bench.new; outlet = B.sink_faults bench.new }) result }
{
    match read_line(line, &mut places.command) {
        LineContent::Nothing => Ok(()),
        LineContent::TooLong => Ok(give(bench, b"line too long\n")?),
        LineContent::Reset => {
            card.reset();
            Ok(give(bench, b"reset\n")?)
        }
        LineContent::NotHexadecimal => Ok(give(bench, b"not hexadecimal\n")?),
        LineContent::Command { size } => {
            answer_command(card, bench, &places.command[..size], &mut places.reply)
        }
    }
}

fn answer_command<B: Bench>(
    card: &mut Card,
    bench: &mut B,
    octets: &[u8],
    place: &mut ReplyPlace,
) -> Result<(), LineStop>
    requires ready { IsReady card.old (B.chip bench.old) }
    ensures { AnswersContent (model.command octets.now) card.old card.new (B.chip bench.old) (B.chip bench.new)
        (record { eeprom = B.faults bench.old; outlet = B.sink_faults bench.old }) (record { eeprom = B.faults bench.new; outlet = B.sink_faults bench.new }) result }
{
    match card.answer(bench, octets, &mut place.reply) {
        Outcome::Replied => Ok(give(bench, place.text())?),
        Outcome::Mute => match give(bench, place.text()) {
            Ok(()) => Err(LineStop::Eeprom),
            Err(_) => Err(LineStop::Both),
        },
    }
}

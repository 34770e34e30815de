// A rack: its readers, and what it does with a line.
ghost use Rattle.std.specs.Prelude.{◌≡◌, ◌∷◌, ℕ, [], length, None, Some, IfSome, IfErr, OnOk, OnErr, IsTrue, is_err, true};
ghost use Rattle.eeprom.specs.Fault.{Counts};
ghost use Rattle.eeprom.specs.Output.{Follows};
ghost use Rattle.scql_model.specs.Machine.{Machine};
ghost use Rattle.reader_rack.specs.Calls.{Exchanges, IsEjected, IsLent, IsPutBack, MayLend, MayPutBack, OnlyPrints, Resets};
ghost use Rattle.reader_rack.specs.RackText.{asked, rack_effect, stated, to_reader};
ghost use Rattle.reader_rack.specs.Racks.{Asks, EndsInAnyState, HoldsCard, LeavesRest, States, TakesIn, answers_at, holds_at};
ghost use Rattle.reader_rack.specs.Readers.{empty};
ghost use Rattle.reader_rack.specs.Statements as statements;
ghost use Rattle.reader_rack.specs.Statements.{IsReader, names_reader, selected};

use crate::boxed::BoxedLink;
use crate::number::ReaderNumber;
use crate::reader::{Reader, say, say_no_card};
use crate::statement::{RackStatement, rack_statement};
use crate::{RackEnd, RackRefusal};
use apdu::Reply;
use card_link::{CardLink, Outcome};
use eeprom::{Outlet, SinkFault};
use taken_line::TakenLine;
use terminal::Refusal;

/// How many readers a rack has.
const READERS: usize = 4;

/// Up to four cards in readers of their own, and the outlet of what is printed. A line goes to the current reader. The links are of any kind, in boxes.
#[derive(Drop)]
pub struct Rack<O: Outlet, L: CardLink = BoxedLink> {
    readers: [Reader<L>; READERS],
    current: ReaderNumber,
    outlet: O,
}

impl<O: Outlet> Rack<O> {
    /// A rack whose readers hold nothing. Reader 1 is current.
    pub fn new(outlet: O) -> Rack<O>
        ensures readers { result.readers ≡ empty ∷ empty ∷ empty ∷ empty ∷ [] }
        ensures current { result.current.number ≡ 1 }
        ensures outlet { result.outlet ≡ outlet }
    {
        Rack {
            readers: [Reader::new(), Reader::new(), Reader::new(), Reader::new()],
            current: ReaderNumber { number: 1 },
            outlet,
        }
    }

    /// Takes a link into a reader, whose terminal is then new. Where the reader holds a link already, the other one is handed back.
    pub fn insert(&mut self, reader: u8, link: Box<dyn CardLink>) -> Result<(), Box<dyn CardLink>>
        requires reader { IsReader reader }
        requires live { IsTrue (is_live link) }
        requires closed { (m : Machine) → is_at link m → m.transaction ≡ None }
        ensures held { is_err result ≡ holds_at self.old.readers reader }
        ensures back { IfErr result (λ back. (back ≡ link) × (self.new ≡ self.old)) }
        ensures inserts { OnOk result (TakesIn ⟦<BoxedLink as CardLink>⟧.is_at ⟦<BoxedLink as CardLink>⟧.is_live ⟦<BoxedLink as CardLink>⟧.faults ⟦<BoxedLink as CardLink>⟧.chip
            reader (is_at link) (faults link) (chip link) self.old.readers self.new.readers self.old.current.number self.new.current.number) }
        ensures live { OnOk result (answers_at ⟦<BoxedLink as CardLink>⟧.is_live self.new.readers reader ≡ true) }
        ensures leaves { LeavesRest reader self.old self.new }
    {
        let place = usize::from(reader) - 1;
        if self.readers[place].is_held() {
            return Err(link);
        }
        self.readers[place].insert(BoxedLink::new(link));
        Ok(())
    }
}

impl<O: Outlet, L: CardLink> Rack<O, L> {
    /// Whether a reader holds a link that answers.
    pub fn live(&self, reader: u8) -> bool
        requires reader { IsReader reader }
        ensures { result ≡ answers_at L.is_live self.now.readers reader }
    {
        self.readers[usize::from(reader) - 1].live()
    }

    /// The number of the reader to which lines go.
    pub fn current(&self) -> u8
        ensures { result ≡ self.now.current.number }
    {
        self.current.number
    }

    /// The outlet.
    pub fn outlet(&self) -> &O
        ensures { result.now ≡ self.now.outlet }
    {
        &self.outlet
    }

    // Asks the current reader for what a line means.
    fn ask(&mut self, line: TakenLine<'_>) -> RackEnd
        ensures ends { EndsInAnyState L.is_at L.is_live O.given (λ state fails. to_reader state state.current (asked (state.reader state.current) line.entry.octets.now fails)) result self.old self.new }
        ensures asks { Asks L.is_live L.faults self.old.current.number result self.old.readers self.new.readers (O.sink_faults self.old.outlet) (O.sink_faults self.new.outlet) }
        ensures current { self.new.current ≡ self.old.current }
    {
        self.readers[usize::from(self.current.number) - 1].answer(&mut self.outlet, line)
    }

    /// Reads a line of at most 1,000 octets, carries it out and prints what comes of it: the rack's own statement, or what it means to the current reader.
    pub fn line(&mut self, line: TakenLine<'_>) -> RackEnd
        ensures ends { EndsInAnyState L.is_at L.is_live O.given (λ state. rack_effect state (Some line.entry.octets.now)) result self.old self.new }
        ensures asks { statements.rack_statement line.entry.octets.now ≡ None
            → Asks L.is_live L.faults self.old.current.number result self.old.readers self.new.readers (O.sink_faults self.old.outlet) (O.sink_faults self.new.outlet) × (self.new.current ≡ self.old.current) }
        ensures states { IfSome (statements.rack_statement line.entry.octets.now) (λ statement.
            States L.faults statement result self.old.readers self.new.readers (O.sink_faults self.old.outlet) (O.sink_faults self.new.outlet)) }
        ensures selects { IfSome (statements.rack_statement line.entry.octets.now) (λ statement. self.new.current.number ≡ selected statement self.old.current.number) }
    {
        match rack_statement(line.octets) {
            Some(statement) => self.state(statement),
            None => self.ask(line),
        }
    }

    /// Says of a line that is longer than a line may be that it is refused.
    pub fn refuse_long_line(&mut self) -> RackEnd
        ensures ends { EndsInAnyState L.is_at L.is_live O.given (λ state. rack_effect state None) result self.old self.new }
        ensures prints { OnlyPrints O.sink_faults result self.old self.new }
    {
        say(
            &mut self.outlet,
            b"error line too long\n",
            RackEnd::Refused {
                why: RackRefusal::Line {
                    why: Refusal::TooLong,
                },
            },
        )
    }

    /// Sets a reader's link aside without a command, and tells whether the reader held one.
    pub fn eject(&mut self, reader: u8) -> bool
        requires reader { IsReader reader }
        ensures { IsEjected L.is_at L.is_live L.faults reader result self.old self.new }
    {
        self.readers[usize::from(reader) - 1].eject()
    }

    /// Lends a reader's link, to be put back. Until then the reader holds none, and its terminal stays.
    pub fn take(&mut self, reader: u8) -> L
        requires { MayLend self.old.readers reader }
        ensures { IsLent reader result self.old self.new }
    {
        self.readers[usize::from(reader) - 1].take()
    }

    /// Puts a link that was lent back into its reader, as it has become.
    pub fn put_back(&mut self, reader: u8, link: L)
        requires { MayPutBack self.old.readers reader }
        ensures { IsPutBack reader link self.old self.new }
    {
        self.readers[usize::from(reader) - 1].put_back(link);
    }

    /// Sends a command to a reader's card. The reader's terminal is told how it was answered.
    pub fn exchange(&mut self, reader: u8, command: &[u8], reply: &mut Reply) -> Outcome
        requires { HoldsCard L.is_live self.old.readers reader }
        ensures { Exchanges L.is_at L.is_live L.faults L.mark L.chip reader command.now reply.new result self.old self.new }
    {
        self.readers[usize::from(reader) - 1].exchange(command, reply)
    }

    /// Resets a reader's card, and the reader's terminal with it.
    pub fn reset(&mut self, reader: u8)
        requires { HoldsCard L.is_live self.old.readers reader }
        ensures { Resets L.is_at L.is_live L.faults L.mark L.chip reader self.old self.new }
    {
        self.readers[usize::from(reader) - 1].reset();
    }

    /// Gives a piece of output.
    pub fn give(&mut self, octets: &[u8]) -> Result<(), SinkFault>
        ensures ok { OnOk result (Follows (length octets.now) octets.now (O.given self.old.outlet) (O.given self.new.outlet)) }
        ensures err { OnErr result ((count : ℕ) × Follows count octets.now (O.given self.old.outlet) (O.given self.new.outlet)) }
        ensures rest { O.leaves self.old.outlet self.new.outlet }
        ensures cause { Counts (O.sink_faults self.old.outlet) (O.sink_faults self.new.outlet) result }
        ensures readers { (self.new.readers ≡ self.old.readers) × (self.new.current ≡ self.old.current) }
    {
        self.outlet.give(octets)
    }

    // Carries out one of the rack's own statements.
    fn state(&mut self, statement: RackStatement) -> RackEnd
        requires reader { IsReader (names_reader statement) }
        ensures ends { EndsInAnyState L.is_at L.is_live O.given (λ state fails. stated state statement) result self.old self.new }
        ensures states { States L.faults statement result self.old.readers self.new.readers (O.sink_faults self.old.outlet) (O.sink_faults self.new.outlet) }
        ensures selects { self.new.current.number ≡ selected statement self.old.current.number }
    {
        match statement {
            RackStatement::Select { reader } => {
                self.current = ReaderNumber { number: reader };
                say(&mut self.outlet, b"ok\n", RackEnd::Answered)
            }
            RackStatement::Eject { reader } => {
                if self.eject(reader) {
                    say(&mut self.outlet, b"ok\n", RackEnd::Answered)
                } else {
                    say_no_card(&mut self.outlet)
                }
            }
        }
    }
}

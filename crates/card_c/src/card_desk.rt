// A card and its EEPROM in one object, which is asked as a link, and whose output is kept as a text.
ghost use Rattle.std.specs.Prelude.{◌≡◌};
ghost use Rattle.card.specs.Card.{IsReady};
ghost use Rattle.line_bench.specs.LineBench.{chip_of};

use apdu::Reply;
use card::Card;
use card_link::{CardLink, Desk, Outcome};
use eeprom::{Heap, Outlet, SinkFault};
use line_bench::LineBench;
use std::marker::Model;

/// A card over its EEPROM. While it is live it is ready.
#[derive(Drop)]
pub struct CardDesk {
    card: Card,
    bench: LineBench,
}

impl Model for CardDesk {
    ghost use Rattle.std.specs.Prelude.{IsTrue};
    ghost use Rattle.card.specs.Card.{IsReady};
    ghost use Rattle.line_bench.specs.LineBench.{chip_of};
    ghost use Rattle.card_c.specs.OnLog.{OnLog, on_log_code};

    ghost Value = { OnLog };

    ghost coded = { on_log_code };

    ghost view = { λ d. record { card = d.card; bench = d.bench } };

    ghost invariant = { λ d. IsTrue d.card.live → IsReady d.card (chip_of d.bench) };
}

impl CardDesk {
    ghost use Rattle.std.specs.Prelude.{◌+◌, length, vec_capacity};
    ghost use Rattle.line_bench.specs.LineBench.{room_for_text, text_of};
    ghost use Rattle.card_c.specs.OnLog.{IsBegun};

    pub fn new(card: Card, bench: LineBench) -> CardDesk
        requires { IsReady card (chip_of bench) }
        ensures { result ≡ record { card = card; bench = bench } }
    {
        CardDesk { card, bench }
    }

    pub fn bench(&self) -> &LineBench
        ensures { result.now ≡ self.now.bench }
    {
        &self.bench
    }

    /// Begins log and text anew.
    pub fn begin(&mut self)
        ensures { IsBegun (room_for_text self.old.bench + length (text_of self.old.bench)) self.old self.new }
    {
        self.bench.begin();
    }

    /// The same, with this room for the text.
    pub fn begin_in(&mut self, room: Vec<u8, Heap>)
        ensures { IsBegun (vec_capacity room) self.old self.new }
    {
        self.bench.begin_in(room);
    }
}

impl CardLink for CardDesk {
    ghost use Rattle.std.specs.Prelude.{◌≡◌, IsTrue};
    ghost use Rattle.std.proofs.Common.{◌∙◌, refl};
    ghost use Rattle.card_link.specs.Link.{Holds, LeavesOpen};
    ghost use Rattle.scql_model.specs.Machine as machine;
    ghost use Rattle.card.specs.LiveCardLaws.{opens-at, over-at};
    ghost use Rattle.line_bench.specs.LineBench.{chip_of};
    ghost use Rattle.card_c.specs.OnLog.{IsDeskAt, is_live, faults_of, mark_of, desk_chip};

    ghost is_at = { IsDeskAt };

    ghost is_live = { is_live };

    ghost faults = { faults_of };

    ghost mark = { mark_of };

    ghost chip = { desk_chip };

    ghost keeps = { λ old new. (desk_chip new).still ≡ (desk_chip old).still };

    ghost goes_on = { λ old new. Unit {0} };

    fn live(&self) -> bool {
        self.card.live()
    }

    fn exchange(&mut self, command: &[u8], reply: &mut Reply) -> Outcome {
        self.card.answer(&mut self.bench, command, reply)
    }

    // The clauses of a link, and that the EEPROM stays as it is.
    fn reset(&mut self)
        requires { IsTrue (is_live self.old) }
        ensures step { (m : machine.Machine) → IsDeskAt self.old m → IsDeskAt self.new (machine.reset m) }
        ensures live { IsTrue (is_live self.new) × (faults_of self.new ≡ faults_of self.old) }
        ensures mark { mark_of self.new ≡ mark_of self.old }
        ensures moments { (m : machine.Machine) → IsDeskAt self.old m → LeavesOpen (Holds (mark_of self.old) m.committed) (desk_chip self.old) (desk_chip self.new) }
        ensures rest { (desk_chip self.new).still ≡ (desk_chip self.old).still }
        ensures goes_on { Unit {0} }
        ensures bench { self.new.bench ≡ self.old.bench }
    {
        self.card.reset();
    }

    ghost marks = { λ d. refl };

    ghost opens = { λ d m at. opens-at d.card (desk_chip d) m at };

    ghost keeps_same = { λ d. refl };

    ghost keeps_then = { λ old mid new first second. second ∙ first };

    ghost goes_on_same = { λ d. tt };

    ghost goes_on_then = { λ old mid new first second. tt };

    ghost valid = { λ d m at. over-at m at.at.valid };
}

impl Outlet for CardDesk {
    ghost use Rattle.card_c.specs.OnLog.{LeavesCard, given_by, text_faults_of};

    ghost given = { given_by };

    ghost sink_faults = { text_faults_of };

    ghost leaves = { LeavesCard };

    fn give(&mut self, octets: &[u8]) -> Result<(), SinkFault> {
        self.bench.give(octets)
    }
}

impl Desk for CardDesk {
    ghost use Rattle.std.proofs.Common.{ap, refl};
    ghost use Rattle.card_c.specs.DeskLaws.{gives-kept};

    ghost kept = { λ old new same. (ap (λ still. still.given) same, ap (λ still. still.sink_faults) same) };

    ghost marked = { λ d told. refl };

    ghost gives = { gives-kept };

    ghost goes_on_given = { λ old new left. tt };
}

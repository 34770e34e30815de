// A rack that lines are handed to.
ghost use Rattle.std.specs.Prelude.{◌≡◌, ℕ, Bool, List, Option, option_map};
ghost use Rattle.scql_model.specs.Machine.{Machine};
ghost use Rattle.reader_rack.specs.declared.reader.Reader.{Reader};
ghost use Rattle.reader_rack.specs.RackText.{RackState, rack_effect};
ghost use Rattle.reader_rack.specs.Racks.{IsRack};
ghost use Rattle.reader_rack.specs.Readers.{EndsEffect};
ghost use Rattle.reader_rack.specs.Statements.{IsReader};
ghost use Rattle.rack_run.specs.Carrying.{Does};

use card_link::CardLink;
use eeprom::Outlet;
use reader_rack::{Rack, RackEnd};
use taken_line::TakenLine;

/// A rack, whatever links it has.
pub(crate) trait LineRack {
    /// The links of its readers.
    ghost Link: { Type 0 };

    /// A link is at a machine.
    ghost is_at: { Self.Link → Machine → Type 0 };

    /// A link answers.
    ghost is_live: { Self.Link → Bool };

    /// How often a link failed.
    ghost faults: { Self.Link → ℕ };

    /// The readers, in their order.
    ghost readers: { Self → List (Reader Self.Link) };

    /// The number of the current reader.
    ghost current: { Self → ℕ };

    /// All that was printed, where told.
    ghost given: { Self → Option (List ℕ) };

    /// How often the outlet failed.
    ghost sink_faults: { Self → ℕ };

    /// Carries out a line, or says of one that is too long that it is refused.
    fn carry_out(&mut self, line: Option<TakenLine<'_>>) -> RackEnd
        ensures ends { (state : RackState) → IsRack is_at is_live (readers self.old) (current self.old) state
            → EndsEffect (IsRack is_at is_live (readers self.new) (current self.new)) (rack_effect state (option_map (λ line. line.octets.now) line.entry)) result (given self.old) (given self.new) }
        ensures does { Does is_live faults (option_map (λ line. line.octets.now) line.entry) result (readers self.old) (current self.old) (readers self.new) (current self.new) (sink_faults self.old) (sink_faults self.new) };

    /// The number of the current reader.
    fn current_reader(&self) -> u8
        ensures current { result ≡ current self.now }
        ensures reader { IsReader result };

    /// One of the readers is current.
    ghost is_reader: { (rack : Self) → IsReader (Self.current rack) };
}

impl<O: Outlet, L: CardLink> LineRack for Rack<O, L> {
    ghost Link = { L };

    ghost is_at = { L.is_at };

    ghost is_live = { L.is_live };

    ghost faults = { L.faults };

    ghost readers = { λ rack. rack.readers };

    ghost current = { λ rack. rack.current.number };

    ghost given = { λ rack. O.given rack.outlet };

    ghost sink_faults = { λ rack. O.sink_faults rack.outlet };

    fn carry_out(&mut self, line: Option<TakenLine<'_>>) -> RackEnd {
        match line {
            Some(line) => self.line(line),
            None => self.refuse_long_line(),
        }
    }

    fn current_reader(&self) -> u8 {
        self.current()
    }

    ghost is_reader = { λ rack. rack.current.reader };
}

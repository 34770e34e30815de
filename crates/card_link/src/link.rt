// A link to a card, and a link with an outlet for what is printed.
ghost use Rattle.std.specs.Prelude.{◌≡◌, ◌≤◌, ℕ, List, ◌∷◌, IsTrue, IsSome, IfSome, Bool, false, length};
ghost use Rattle.eeprom.specs.Chip.{Chip};
ghost use Rattle.eeprom.specs.Fault.{Rose};
ghost use Rattle.scql_base.specs.Words.{memory_failure};
ghost use Rattle.scql_model.specs.Machine as machine;
ghost use Rattle.scql_model.specs.Opens.{Opens};
ghost use Rattle.scql_model.specs.Replies.{said};
ghost use Rattle.scql_model.specs.Step as stepping;
ghost use Rattle.card_link.specs.Link.{Answered, AfterOutput, Holds, IsOneOf, HasValidData, LeavesOpen};

use crate::Outcome;
use apdu::Reply;
use eeprom::Outlet;

/// A card that is asked. It has every operation.
pub trait CardLink: Drop {
    /// The link's card is at this machine. Where nothing is told of a link it is at none.
    ghost is_at: { Self → machine.Machine → Type 0 };

    /// Whether the card still answers.
    ghost is_live: { Self → Bool };

    /// How often the card failed.
    ghost faults: { Self → ℕ };

    /// How many octets of output had gone out.
    ghost mark: { Self → ℕ };

    /// What the EEPROM of the card has become, the output included.
    ghost chip: { Self → Chip };

    /// What a call leaves of the rest of the object.
    ghost keeps: { Self → Self → Type 0 };

    /// Calls lead from one to the other. What they keep of the object is for callers who know its type.
    ghost goes_on: { Self → Self → Type 0 };

    /// Whether the card still answers.
    fn live(&self) -> bool
        ensures { result ≡ is_live self.now };

    /// Sends a command. The reply is that of the machine's step, or the card failed and is mute.
    fn exchange(&mut self, command: &[u8], reply: &mut Reply) -> Outcome
        requires { IsTrue (is_live self.old) }
        ensures step { (m : machine.Machine) → is_at self.old m → result ≡ Outcome.Replied
            → Answered is_at (stepping.step m command.now) reply.new self.new }
        ensures replied { result ≡ Outcome.Replied → IsTrue (is_live self.new) × (faults self.new ≡ faults self.old) }
        ensures mute { result ≡ Outcome.Mute → (reply.new ≡ said memory_failure) × (is_live self.new ≡ false) }
        ensures cause { result ≡ Outcome.Mute → Rose (faults self.old) (faults self.new) }
        ensures never_falls { faults self.old ≤ faults self.new }
        ensures mark { mark self.new ≡ mark self.old }
        ensures moments { (m : machine.Machine) → is_at self.old m
            → LeavesOpen (IsOneOf (mark self.old) (m.committed ∷ (stepping.step m command.now).commits)) (chip self.old) (chip self.new) }
        ensures rest { keeps self.old self.new }
        ensures goes_on { goes_on self.old self.new };

    /// Resets the card.
    fn reset(&mut self)
        requires { IsTrue (is_live self.old) }
        ensures step { (m : machine.Machine) → is_at self.old m → is_at self.new (machine.reset m) }
        ensures live { IsTrue (is_live self.new) × (faults self.new ≡ faults self.old) }
        ensures mark { mark self.new ≡ mark self.old }
        ensures moments { (m : machine.Machine) → is_at self.old m → LeavesOpen (Holds (mark self.old) m.committed) (chip self.old) (chip self.new) }
        ensures rest { keeps self.old self.new }
        ensures goes_on { goes_on self.old self.new };

    /// The mark is that of the EEPROM.
    ghost marks: { (l : Self) → mark l ≡ (chip l).still.mark };

    /// The image, where told, opens to the machine's committed database.
    ghost opens: { (l : Self) (m : machine.Machine) → is_at l m → IfSome (chip l).image (λ image. Opens image m.committed) };

    /// No call at all keeps the rest, and so do calls one after another.
    ghost keeps_same: { (l : Self) → keeps l l };

    ghost keeps_then: { (old mid new : Self) → keeps old mid → keeps mid new → keeps old new };

    /// It goes on by no call at all, and by calls one after another.
    ghost goes_on_same: { (l : Self) → goes_on l l };

    ghost goes_on_then: { (old mid new : Self) → goes_on old mid → goes_on mid new → goes_on old new };

    /// The machine's databases are valid.
    ghost valid: { (l : Self) (m : machine.Machine) → is_at l m → HasValidData m };
}

/// A link and the outlet of what is printed, in one object, so that each moment has its mark: the number of octets that had gone out.
pub trait Desk: CardLink + Outlet {
    /// A command and a reset leave what was given, and the outlet's count.
    ghost kept: { (old new : Self) → Self.keeps old new → (Self.given new ≡ Self.given old) × (Self.sink_faults new ≡ Self.sink_faults old) };

    /// Where moments are told, the mark is the length of what was given, if that is told.
    ghost marked: { (d : Self) → IsSome (Self.chip d).past → IfSome (Self.given d) (λ given. Self.mark d ≡ length given) };

    /// Giving leaves the machine, whether the card answers, and its count. The mark rises, and at each moment meanwhile the database is the committed one.
    ghost gives: { (old new : Self) → Self.leaves old new → AfterOutput Self.is_at Self.is_live Self.faults Self.mark Self.chip old new };

    /// Giving is such a call.
    ghost goes_on_given: { (old new : Self) → Self.leaves old new → Self.goes_on old new };
}

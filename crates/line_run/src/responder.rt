// What answers the lines of a run.
ghost use Rattle.std.specs.Prelude.{◌≡◌, ℕ, Bool, true, Option, option_map, OnOk, IfErr, IsErrOf};
ghost use Rattle.eeprom.specs.Chip.{Chip};
ghost use Rattle.scql_model.specs.Heard.{IsLawful};
ghost use Rattle.scql_model.specs.Lines.{Language};
ghost use Rattle.line_run.specs.Answering.{Answered, Failed, OpensToState};
ghost use Rattle.line_run.specs.Causes.{Faults, Causes};

use crate::LineStop;
use taken_line::TakenLine;

/// A card with the outlet of its answers, asked in a language of lines.
pub trait Responder {
    /// The states of the language.
    ghost State: { Type 0 };

    /// What lines do.
    ghost language: { Language Self.State };

    /// It is in this state. Where nothing is told of its EEPROM it is in none.
    ghost is_at: { Self → Self.State → Type 0 };

    /// It can answer a line.
    ghost is_ready: { Self → Type 0 };

    /// What the EEPROM has become, the output included.
    ghost chip: { Self → Chip };

    /// How often the EEPROM and the outlet failed.
    ghost faults: { Self → Faults };

    /// Whether it takes memory for a line.
    ghost takes_memory: { Bool };

    /// Lines lead from one to the other, the last of which it may have failed in. What they keep of the object is for callers who know its type.
    ghost goes_on: { Self → Self → Type 0 };

    /// Answers a whole line, or none where it has more octets than a line may have.
    fn answer_line(&mut self, line: Option<TakenLine<'_>>) -> Result<(), LineStop>
        requires ready { is_ready self.old }
        ensures answered { (state : Self.State) → is_at self.old state
            → OnOk result (Answered language state (language.effect state (option_map (λ line. line.octets.now) line.entry)) (is_at self.new) (chip self.old) (chip self.new)) }
        ensures failed { (state : Self.State) → is_at self.old state
            → IfErr result (λ stop. Failed stop language state (language.effect state (option_map (λ line. line.octets.now) line.entry)) (chip self.old) (chip self.new)) }
        ensures ready { OnOk result (is_ready self.new) }
        ensures causes { Causes (faults self.old) (faults self.new) result }
        ensures memory { IsErrOf result LineStop.NoMemory → takes_memory ≡ true }
        ensures goes_on { goes_on self.old self.new };

    /// What a run relies on in the language.
    ghost lawful: { IsLawful Self.language };

    /// The image opens to the database of a state that it is in.
    ghost over: { (r : Self) → Self.is_ready r → OpensToState Self.language (Self.is_at r) (Self.chip r) };

    /// It goes on by no line at all, and by lines one after another.
    ghost goes_on_same: { (r : Self) → Self.goes_on r r };

    ghost goes_on_then: { (old mid new : Self) → Self.is_ready mid → Self.goes_on old mid → Self.goes_on mid new → Self.goes_on old new };
}

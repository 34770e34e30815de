// What the lines of an input are handed to.
ghost use Rattle.std.specs.Prelude.{ℕ, List, [], ◌∷◌, ◌++◌, Option, option_map, OnOk, IfErr};

use taken_line::TakenLine;

/// Answers lines one after another, until one stops it.
pub trait LineAnswerer {
    /// Why it stopped.
    type Stop;

    /// It can answer a line.
    ghost is_ready: { Self → Type 0 };

    /// It went from the one state to the other as it answered these lines. In place of a line that was too long there is none.
    ghost answers: { Self → List (Option (List ℕ)) → Self → Type 0 };

    /// It went from the one state to the other as it was stopped in this line, for this reason.
    ghost stops: { Self → Option (List ℕ) → Self.Stop → Self → Type 0 };

    /// Answers a whole line, or none where it has more octets than a line may have.
    fn answer(&mut self, line: Option<TakenLine<'_>>) -> Result<(), Self::Stop>
        requires ready { is_ready self.old }
        ensures answered { OnOk result (answers self.old (option_map (λ line. line.octets.now) line.entry ∷ []) self.new) }
        ensures stopped { IfErr result (λ stop. stops self.old (option_map (λ line. line.octets.now) line.entry) stop self.new) }
        ensures ready { OnOk result (is_ready self.new) };

    /// Without a line it stays as it is.
    ghost none: { (a : Self) → Self.is_ready a → Self.answers a [] a };

    /// Lines and then others are answered as all of them.
    ghost then: { (a b c : Self) (first second : List (Option (List ℕ))) → Self.answers a first b → Self.answers b second c → Self.answers a (first ++ second) c };
}

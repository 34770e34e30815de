// A person, or nobody.
ghost use Rattle.std.specs.Prelude.{ℕ, Bool, List, Option};
ghost use Rattle.person.specs.Showing.{Shows, ShowsSome};

use crate::Presence;

/// Who may be shown something beside the output: how far a run has come, or that it waits for a line.
pub trait Person {
    /// All that was shown, where told.
    ghost shown: { Self → Option (List ℕ) };

    /// No more can be shown.
    ghost lost: { Self → Bool };

    /// Shows a text, as far as it can be shown. Where it can't, no more is.
    fn show(&mut self, text: &[u8])
        ensures { Shows lost shown text.now self.old self.new };

    /// How the person follows the run. Nothing need be shown to one who is away.
    fn presence(&self) -> Presence;

    /// Shows what the run goes over, as the person calls it.
    fn show_title(&mut self)
        ensures { ShowsSome lost shown self.old self.new };
}

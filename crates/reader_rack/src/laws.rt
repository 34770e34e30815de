// A law over the lines of a rack. It is the contract of a function that does nothing.
ghost use Rattle.std.specs.Prelude.{◌≡◌, ℕ, List, map};
ghost use Rattle.std.specs.List.{concat};
ghost use Rattle.scql_model.specs.Lines.{run_text, taken_line};
ghost use Rattle.planner.specs.StatementLines.{TerminalState, statement_lines};
ghost use Rattle.reader_rack.specs.OwnLines.{AreSound, OwnTurn, own_turns, statements_text};
ghost use Rattle.reader_rack.specs.RackText.{RackState, Turn, sits};

/// What a reader's own card was asked for is answered as at a terminal of its own: the texts of these lines, joined, are the terminal's, from what the
/// reader held on, as long as the card doesn't go mute, up to the line that sets its link aside.
pub fn own_lines_are_a_terminals()
    ensures own { (number : ℕ) (rack : RackState) (state : TerminalState) (turns : List Turn) → rack.reader number ≡ sits state → AreSound (own_turns number rack turns)
        → concat (map (λ (own : OwnTurn). own.text) (own_turns number rack turns)) ≡ statements_text state (map (λ (own : OwnTurn). own.turn.line) (own_turns number rack turns)) }
    ensures terminal { (state : TerminalState) (lines : List (List ℕ)) → run_text statement_lines state lines ≡ statements_text state (map taken_line lines) }
{}

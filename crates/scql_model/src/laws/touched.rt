// The law on the records that a transaction touched: no answer goes by them.
ghost use Rattle.std.specs.Prelude.{List, ℕ, ◌≡◌};
ghost use Rattle.scql_model.specs.Machine.{Machine, reset};
ghost use Rattle.scql_model.specs.Step.{step};
ghost use Rattle.scql_model.specs.Touched.{without_touched};

/// No reply, no commit and no database goes by the records that a transaction touched: a machine without them gives the same
/// reply and commits the same, and the two then differ in such records alone. A reset leaves both alike.
pub fn no_answer_goes_by_what_is_touched()
    ensures reply { (m n : Machine) (octets : List ℕ) → without_touched m ≡ n → (step m octets).reply ≡ (step n octets).reply }
    ensures commits { (m n : Machine) (octets : List ℕ) → without_touched m ≡ n → (step m octets).commits ≡ (step n octets).commits }
    ensures machine { (m n : Machine) (octets : List ℕ) → without_touched m ≡ n
        → without_touched (step m octets).machine ≡ without_touched (step n octets).machine }
    ensures reset { (m n : Machine) → without_touched m ≡ n → without_touched (reset m) ≡ reset n }
{}

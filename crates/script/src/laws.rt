// Laws over the grammar. Each is the contract of a function that does nothing.
ghost use Rattle.std.specs.Prelude.{◌≡◌, List, None};
ghost use Rattle.script.specs.Grammar.{whole};
ghost use Rattle.script.specs.Place.{IsAtFault, IsBegun};
ghost use Rattle.script.specs.Tokens.{Token};

/// The place of a fault is that of the first token at fault: no statement begins with the tokens before it and that one.
pub fn no_statement_begins_with_a_fault()
    ensures { (tokens rest : List Token) → whole tokens ≡ (None, rest) → IsAtFault tokens rest }
{}

/// The tokens before a fault are at no fault: some statement begins with them.
pub fn a_statement_begins_before_a_fault()
    ensures { (tokens rest : List Token) → whole tokens ≡ (None, rest) → IsBegun tokens rest }
{}

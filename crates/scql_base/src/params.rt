// The parameters of a command: the strings that its data field splits into.
ghost use Rattle.std.specs.Prelude.{◌≡◌, ◌≢◌, ◌<◌, ◌==◌, ℕ, List, [], ◌∷◌, Some, None, if◌then◌else◌, IfSome, IfNone, length, option_map};
ghost use Rattle.scql_base.specs.Bounded.{HasAt};
ghost use Rattle.scql_base.specs.Strings.{AreParams, first_of, params_of, with_string};

use std::marker::Model;

/// The parameters of a data field: octet strings, each a length in one octet and so many octets.
#[derive(Drop)]
pub struct Params<'a> {
    pub(crate) octets: &'a [u8],
    pub(crate) count: usize,
}

impl<'a> Model for Params<'a> {
    ghost use Rattle.std.specs.Prelude.{List, ℕ, Some, length, ◌≡◌};
    ghost use Rattle.scql_base.specs.Strings.{params_of, strings_of};

    ghost Value = { List (List ℕ) };

    ghost view = { λ p. strings_of p.octets.now };

    ghost invariant = { λ p. (params_of p.octets.now ≡ Some (strings_of p.octets.now)) × (p.count ≡ length (strings_of p.octets.now)) };
}

impl<'a> Params<'a> {
    /// The one split of a data field, where there is one.
    pub fn read(octets: &'a [u8]) -> Option<Params<'a>>
        ensures value { result ≡ params_of octets.now }
        ensures found { IfSome result (λ strings. AreParams octets.now strings) }
        ensures only { (strings : List (List ℕ)) → AreParams octets.now strings → result ≡ Some strings }
    {
        let count = count_of(octets)?;
        Some(Params { octets, count })
    }

    /// How many parameters there are.
    pub fn count(&self) -> usize
        ensures { result ≡ length self.now }
    {
        self.count
    }

    /// The parameter at a place, counted from 0.
    pub fn get(&self, place: usize) -> Option<&'a [u8]>
        ensures { HasAt self.now place result }
    {
        let mut rest = self.octets;
        for _ in 0..place {
            let (_, after) = Params::first_in(rest)?;
            rest = after;
        }
        let (string, _) = Params::first_in(rest)?;
        Some(string)
    }

    /// The first parameter of octets that may split into parameters, and the octets behind it.
    pub fn first_in(octets: &'a [u8]) -> Option<(&'a [u8], &'a [u8])>
        ensures exact { option_map (λ x. (x.0.now, x.1.now)) result ≡ first_of octets.now }
        ensures some { IfSome result (λ x. params_of octets.now ≡ with_string x.0.now (params_of x.1.now)) }
        ensures none { IfNone result (params_of octets.now ≡ (if length octets.now == 0 then Some [] else None)) }
        ensures shorter { IfSome result (λ x. length x.1.now < length octets.now) }
    {
        let [len, after @ ..] = octets else {
            return None;
        };
        let len = usize::from(*len);
        if after.len() < len {
            return None;
        }
        Some(after.split_at(len))
    }

    /// The one parameter that octets are.
    pub fn only_in(octets: &'a [u8]) -> Option<&'a [u8]>
        ensures some { IfSome result (λ string. params_of octets.now ≡ Some (string.now ∷ [])) }
        ensures none { (string : List ℕ) → IfNone result (params_of octets.now ≢ Some (string ∷ [])) }
    {
        let (string, after) = Params::first_in(octets)?;
        if after.is_empty() { Some(string) } else { None }
    }
}

// How many parameters octets split into, where they do.
fn count_of(octets: &[u8]) -> Option<usize>
    ensures { result ≡ option_map length (params_of octets.now) }
{
    let mut count = 0;
    let mut rest = octets;
    while let Some((_, after)) = Params::first_in(rest) {
        rest = after;
        count += 1;
    }
    if rest.is_empty() { Some(count) } else { None }
}

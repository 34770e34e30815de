// The parts so far of a command that comes in parts (ISO/IEC 7816-4, command chaining).
ghost use Rattle.std.specs.Prelude.{◌≡◌, ◌≤◌, ◌<◌, ◌+◌, ◌++◌, ◌∷◌, [], length};
ghost use Rattle.std.specs.List.{concat};
ghost use Rattle.scql_model.specs.Operations as table;

use apdu::goes_on;
use arrayvec::ArrayVec;
use scql_base::OperationKind;
use std::marker::Model;

/// The parts of a command, at most 4 of at most 255 octets, with room for one more that ends it.
#[derive(Drop)]
pub(crate) struct Chain {
    kind: OperationKind,
    octets: ArrayVec<u8, 1275>,
    sizes: ArrayVec<u8, 4>,
}

impl Model for Chain {
    ghost use Rattle.std.specs.Prelude.{◌≡◌, ◌≤◌, ◌*◌, length};
    ghost use Rattle.scql_model.specs.Machine as machine;
    ghost use Rattle.apdu_chain.specs.Parts.{cut_by, total};

    ghost Value = { machine.Chain };

    ghost view = { λ c. record { operation = c.kind; parts = cut_by c.sizes.items c.octets.items } };

    ghost invariant = { λ c. (total c.sizes.items ≡ length c.octets.items) × (length c.octets.items ≤ 255 * length c.sizes.items) × (length c.sizes.items ≤ 4) };
}

impl Chain {
    /// No parts yet of a command of this operation.
    pub(crate) fn new(kind: OperationKind) -> Chain
        ensures { result ≡ record { operation = kind; parts = [] } }
    {
        Chain {
            kind,
            octets: ArrayVec::new(),
            sizes: ArrayVec::new(),
        }
    }

    /// How many parts there are.
    pub(crate) fn len(&self) -> usize
        ensures count { result ≡ length self.now.parts }
        ensures most { length self.now.parts ≤ 4 }
    {
        self.sizes.len()
    }

    /// Whether a command of this operation goes on with these parts.
    pub(crate) fn goes_on_with(&self, kind: OperationKind) -> bool
        ensures { result ≡ table.goes_on kind self.now.operation }
    {
        goes_on(kind, self.kind)
    }

    /// Adds a part.
    pub(crate) fn push(&mut self, part: &[u8])
        requires few { length self.old.parts < 4 }
        requires short { length part.now ≤ 255 }
        ensures { self.new ≡ record self.old { parts = self.old.parts ++ part.now ∷ [] } }
    {
        append(&mut self.octets, part);
        self.sizes.push(part.len() as u8);
    }

    /// The octets of all parts, and of the one that ends them.
    pub(crate) fn joined(&self, last: &[u8]) -> ArrayVec<u8, 1275>
        requires { length last.now ≤ 255 }
        ensures { result.items ≡ concat self.now.parts ++ last.now }
    {
        let mut octets = ArrayVec::new();
        append(&mut octets, self.octets.as_slice());
        append(&mut octets, last);
        octets
    }
}

fn append(octets: &mut ArrayVec<u8, 1275>, part: &[u8])
    requires { length octets.old.items + length part.now ≤ 1275 }
    ensures { octets.new.items ≡ octets.old.items ++ part.now }
{
    let fits = octets.try_extend_from_slice(part).is_ok();
    prove!(fits);
}

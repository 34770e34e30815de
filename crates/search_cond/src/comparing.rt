// How values compare.
ghost use Rattle.std.specs.Prelude.{◌≡◌};
ghost use Rattle.scql_model.specs.Matching as matching;

use scql_base::Comparison;

/// Whether a comparison is true of two values, which compare octet by octet; one that begins the other is less.
pub(crate) fn compares(comparison: Comparison, value: &[u8], other: &[u8]) -> bool
    ensures { result ≡ matching.compares comparison value.now other.now }
{
    let order = value.cmp(other);
    match comparison {
        Comparison::Equal => order.is_eq(),
        Comparison::Less => order.is_lt(),
        Comparison::Greater => order.is_gt(),
        Comparison::AtMost => order.is_le(),
        Comparison::AtLeast => order.is_ge(),
        Comparison::NotEqual => order.is_ne(),
    }
}

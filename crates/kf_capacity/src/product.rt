ghost use Rattle.std.specs.Prelude.{◌≡◌, ◌*◌, ◌≤◌, SomeIff};
ghost use Rattle.kf_frac.specs.Fractions.{limit};

use crate::LIMIT;

/// The product, or `None` where it passes 2^127 - 1.
pub(crate) fn product(m: u128, n: u128) -> Option<u128>
    ensures { SomeIff result (m * n ≤ limit) (m * n) }
{
    match m.checked_mul(n) {
        Some(product) if product <= LIMIT => Some(product),
        _ => None,
    }
}

/// The product of two numbers, by one multiplication of 64 bits where both fit.
pub(crate) fn short_product(m: u128, n: u128) -> u128
    requires { m * n ≤ limit }
    ensures { result ≡ m * n }
{
    match (u64::try_from(m), u64::try_from(n)) {
        (Ok(m), Ok(n)) => u128::from(m) * u128::from(n),
        _ => m * n,
    }
}

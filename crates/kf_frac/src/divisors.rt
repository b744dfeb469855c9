ghost use Rattle.std.specs.Prelude.{◌≡◌, ◌<◌, ◌≤◌, ◌/◌, IfSome, SomeIff};
ghost use Rattle.kf_frac.specs.Divisors.{gcd_of, lcm_of};
ghost use Rattle.kf_frac.specs.Laws.{IsLcm};
ghost use Rattle.kf_frac.specs.Fractions.{limit};

use crate::LIMIT;

// The greatest common divisor of numbers of 64 bits.
fn narrow_gcd(mut x: u64, mut y: u64) -> u64
    ensures { result ≡ gcd_of x y }
{
    while y != 0 {
        let rest = x % y;
        x = y;
        y = rest;
    }
    x
}

// The same of any numbers, which the remainders soon bring down to 64 bits.
fn wide_gcd(mut x: u128, mut y: u128) -> u128
    ensures { result ≡ gcd_of x y }
{
    while y != 0 {
        if let (Ok(x), Ok(y)) = (u64::try_from(x), u64::try_from(y)) {
            return u128::from(narrow_gcd(x, y));
        }
        let rest = x % y;
        x = y;
        y = rest;
    }
    x
}

/// The greatest common divisor; 0 for two zeros.
///
/// The powers of two that both have are set aside first: weights are mostly shares of a scale with many of them.
pub fn gcd(a: u128, b: u128) -> u128
    ensures { result ≡ gcd_of a b }
{
    if a == b {
        return a;
    }
    let twos = a.trailing_zeros().min(b.trailing_zeros());
    wide_gcd(a >> twos, b >> twos) << twos
}

/// `a / b`, with no division where `b` is 1 or `a`, and one of 64 bits where both fit, or do so without the powers of two
/// that `b` has.
///
/// Weights are mostly divided by 1 or by themselves, and a division of 128 bits is a call of the runtime.
pub fn quotient(a: u128, b: u128) -> u128
    requires { 0 < b }
    ensures { result ≡ a / b }
{
    if b == 1 {
        a
    } else if a == b {
        1
    } else {
        let twos = b.trailing_zeros();
        match (u64::try_from(a >> twos), u64::try_from(b >> twos)) {
            (Ok(a), Ok(b)) => u128::from(a / b),
            _ => a / b,
        }
    }
}

/// The least common multiple, or `None` where it passes 2^127 - 1.
pub fn lcm(a: u128, b: u128) -> Option<u128>
    requires a { 1 ≤ a }
    requires b { 1 ≤ b }
    ensures exact { SomeIff result (lcm_of a b ≤ limit) (lcm_of a b) }
    ensures least { IfSome result (λ m. IsLcm a b m) }
{
    match quotient(a, gcd(a, b)).checked_mul(b) {
        Some(multiple) if multiple <= LIMIT => Some(multiple),
        _ => None,
    }
}

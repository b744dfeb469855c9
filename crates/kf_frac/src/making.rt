ghost use Rattle.std.specs.Prelude.{◌≡◌, ◌≤◌, ◌↔◌, IfOk, IsOk, IsTrue, pos, ◌<ℤ◌};
ghost use Rattle.kf_frac.specs.Fractions.{reduced_num, reduced_den, limit};
ghost use Rattle.kf_frac.specs.Parts.{PartsFit, signed};
ghost use Rattle.kf_frac.specs.Views.{num_of, den_of};

use crate::{Frac, LIMIT, gcd, quotient};

/// A part of the answer passes 2^127 - 1.
#[derive(Clone, Copy, Debug, PartialEq, Eq)]
pub struct Wide;

/// The fraction `num / den` in lowest terms, or `Wide` where a part of it passes 2^127 - 1.
pub fn make(num: i128, den: u128) -> Result<Frac, Wide>
    requires { 1 ≤ den }
    ensures num { IfOk result (λ f. num_of f ≡ reduced_num num den) }
    ensures den { IfOk result (λ f. den_of f ≡ reduced_den num den) }
    ensures fits { IsOk result ↔ PartsFit (reduced_num num den) (reduced_den num den) }
{
    let (negative, size) = sign_and_size(num);
    lowest_terms(negative, size, den)
}

// `size / den` in lowest terms, or minus that.
pub(crate) fn lowest_terms(negative: bool, size: u128, den: u128) -> Result<Frac, Wide>
    requires { 1 ≤ den }
    ensures num { IfOk result (λ f. num_of f ≡ reduced_num (signed negative size) den) }
    ensures den { IfOk result (λ f. den_of f ≡ reduced_den (signed negative size) den) }
    ensures fits { IsOk result ↔ PartsFit (reduced_num (signed negative size) den) (reduced_den (signed negative size) den) }
{
    let divisor = gcd(size, den);
    let size = quotient(size, divisor);
    let den = quotient(den, divisor);
    if size > LIMIT || den > LIMIT {
        return Err(Wide);
    }
    Ok(Frac {
        num: with_sign(negative, size),
        den,
    })
}

fn with_sign(negative: bool, size: u128) -> i128
    requires { size ≤ limit }
    ensures { result ≡ signed negative size }
{
    if negative {
        -(size as i128)
    } else {
        size as i128
    }
}

// Whether a number is below 0, and its absolute value.
pub(crate) fn sign_and_size(num: i128) -> (bool, u128)
    ensures value { signed result.0 result.1 ≡ num }
    ensures below { IsTrue result.0 ↔ (num <ℤ pos 0) }
{
    (num < 0, num.unsigned_abs())
}

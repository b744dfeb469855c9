ghost use Rattle.std.specs.Prelude.{◌≡◌, ◌≤◌, ◌+◌, ◌*◌, ◌↔◌, IfOk, IsOk, IfSome, IsSome, IsTrue, ◌<ℤ◌, ◌+ℤ◌, ◌*ℤ◌, pos, unsigned_abs};
ghost use Rattle.std.specs.Ordering.{int_cmp};
ghost use Rattle.kf_frac.specs.Arithmetic.{sum_num, sum_over};
ghost use Rattle.kf_frac.specs.Divisors.{lcm_of};
ghost use Rattle.kf_frac.specs.Fractions.{limit, reduced_num, reduced_den};
ghost use Rattle.kf_frac.specs.Parts.{PartsFit, signed, value_of};
ghost use Rattle.kf_frac.specs.Views.{num_of, den_of};

use crate::making::{lowest_terms, sign_and_size};
use crate::product::Product;
use crate::{Frac, Wide, gcd, lcm, quotient};
use std::cmp::Ordering;

/// The exact sum, or `Wide` where it can't be written over the least common multiple of the
/// denominators within 2^127 - 1.
pub fn add(a: Frac, b: Frac) -> Result<Frac, Wide>
    ensures num { IfOk result (λ f. num_of f ≡ reduced_num (sum_num a b) (den_of a * den_of b)) }
    ensures den { IfOk result (λ f. den_of f ≡ reduced_den (sum_num a b) (den_of a * den_of b)) }
    ensures fits { let m = lcm_of (den_of a) (den_of b) in IsOk result ↔ PartsFit (sum_over m a b) m }
{
    let den = lcm(a.den, b.den).ok_or(Wide)?;
    let (a_negative, a_size) = times(a, quotient(den, a.den));
    let (b_negative, b_size) = times(b, quotient(den, b.den));
    let (negative, size) = sum(a_negative, a_size, b_negative, b_size).ok_or(Wide)?;
    lowest_terms(negative, size, den)
}

// The numerator times a factor: whether it is below 0, and its absolute value.
fn times(f: Frac, factor: u128) -> (bool, Product)
    ensures value { signed result.0 (value_of result.1) ≡ num_of f *ℤ pos factor }
    ensures below { IsTrue result.0 ↔ (num_of f <ℤ pos 0) }
{
    let (negative, size) = sign_and_size(f.num);
    (negative, Product::new(size, factor))
}

// The sign and size of a sum of two numbers with signs, where it is within the limit.
fn sum(a_negative: bool, a: Product, b_negative: bool, b: Product) -> Option<(bool, u128)>
    ensures exact { IfSome result (λ s. signed s.0 s.1 ≡ signed a_negative (value_of a) +ℤ signed b_negative (value_of b)) }
    ensures fits { IsSome result ↔ (unsigned_abs (signed a_negative (value_of a) +ℤ signed b_negative (value_of b)) ≤ limit) }
{
    let size = if a_negative == b_negative {
        a.sum_in_limit(b)?
    } else if a.compare(b) == Ordering::Less {
        return Some((b_negative, b.difference_in_limit(a)?));
    } else {
        a.difference_in_limit(b)?
    };
    Some((a_negative, size))
}

/// The exact product, or `Wide` where a part of it in lowest terms passes 2^127 - 1.
pub fn mul(a: Frac, b: Frac) -> Result<Frac, Wide>
    ensures num { IfOk result (λ f. num_of f ≡ reduced_num (num_of a *ℤ num_of b) (den_of a * den_of b)) }
    ensures den { IfOk result (λ f. den_of f ≡ reduced_den (num_of a *ℤ num_of b) (den_of a * den_of b)) }
    ensures fits { let n = num_of a *ℤ num_of b in
        let d = den_of a * den_of b in
        IsOk result ↔ PartsFit (reduced_num n d) (reduced_den n d) }
{
    let (a_negative, a_size) = sign_and_size(a.num);
    let (b_negative, b_size) = sign_and_size(b.num);
    let left = gcd(a_size, b.den);
    let right = gcd(b_size, a.den);
    let size = (a_size / left).checked_mul(b_size / right).ok_or(Wide)?;
    let den = (a.den / right).checked_mul(b.den / left).ok_or(Wide)?;
    lowest_terms(a_negative != b_negative, size, den)
}

/// The exact order.
pub fn cmp(a: Frac, b: Frac) -> Ordering
    ensures { result ≡ int_cmp (num_of a *ℤ pos (den_of b)) (num_of b *ℤ pos (den_of a)) }
{
    let (a_negative, a_size) = times(a, b.den);
    let (b_negative, b_size) = times(b, a.den);
    match (a_negative, b_negative) {
        (false, false) => a_size.compare(b_size),
        (true, true) => b_size.compare(a_size),
        (true, false) => Ordering::Less,
        (false, true) => Ordering::Greater,
    }
}

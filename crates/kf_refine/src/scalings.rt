//! Weights of kept values as whole numbers without common factor.

ghost use Rattle.std.specs.Prelude.{◌≡◌, ℕ, ◌*◌, ◌/◌, ◌<◌, ◌≤◌, ◌^◌, ◌⊎◌, pos, Contains, None, IfSome, SomeIff, length};
ghost use Rattle.kf_refine.specs.Built.{AreFactors, InLowest, IsDivisor, IsDivisorOf};
ghost use Rattle.kf_refine.specs.Equations.{AreKept, AreWhole};
ghost use Rattle.kf_refine.specs.Refinements.{count, joint};
ghost use Rattle.kf_refine.specs.Views.{hyper_tree};

use kf_frac::gcd;
use kf_hyper::Hyper;

/// What the joint weights of two hypers are divided by and then multiplied by.
#[derive(Clone, Copy, Debug)]
pub(crate) struct Scaling {
    pub(crate) a_divisor: u128,
    pub(crate) a_factor: u128,
    pub(crate) b_divisor: u128,
    pub(crate) b_factor: u128,
    ghost a_some: { 0 < a_divisor },
    ghost b_some: { 0 < b_divisor },
}

impl Scaling {
    /// A joint weight of the first hyper as a whole number, where that is at most 2^62.
    pub(crate) fn of_a(&self, weight: u128) -> Option<i64>
        ensures { let whole = weight / self.now.a_divisor * self.now.a_factor in SomeIff result (whole ≤ 2 ^ 62) (pos whole) }
    {
        match narrow_product(weight / self.a_divisor, self.a_factor) {
            Some(product) => Some(product as i64),
            None => None,
        }
    }

    /// A joint weight of the second hyper as a whole number, where that is at most 2^62.
    pub(crate) fn of_b(&self, weight: u128) -> Option<i64>
        ensures { let whole = weight / self.now.b_divisor * self.now.b_factor in SomeIff result (whole ≤ 2 ^ 62) (pos whole) }
    {
        match narrow_product(weight / self.b_divisor, self.b_factor) {
            Some(product) => Some(product as i64),
            None => None,
        }
    }
}

/// How the joint weights of kept values become whole numbers without common factor; none where one of these numbers passes 2^62 for
/// its factor alone.
pub(crate) fn to_whole(a: &Hyper, b: &Hyper, kept: &[u64]) -> Option<Scaling>
    requires { AreKept (hyper_tree a.now) (hyper_tree b.now) kept.now }
    ensures some { IfSome result (λ w. AreWhole (hyper_tree a.now) (hyper_tree b.now) kept.now
        (λ x i. joint (hyper_tree a.now) x i / w.a_divisor * w.a_factor) (λ x j. joint (hyper_tree b.now) x j / w.b_divisor * w.b_factor)) }
    ensures none { result ≡ None → (u : ℕ → ℕ → ℕ) × (v : ℕ → ℕ → ℕ) × AreWhole (hyper_tree a.now) (hyper_tree b.now) kept.now u v
        × (x : ℕ) × Contains kept.now x
        × (((i : ℕ) × (i < count (hyper_tree a.now)) × (2 ^ 62 < u x i)) ⊎ ((j : ℕ) × (j < count (hyper_tree b.now)) × (2 ^ 62 < v x j))) }
{
    let a_divisor = divisor(a, kept);
    let b_divisor = divisor(b, kept);
    let (a_factor, b_factor) = factors(a_divisor, a.scale(), b_divisor, b.scale())?;
    Some(Scaling {
        a_divisor,
        a_factor,
        b_divisor,
        b_factor,
    })
}

// The greatest common divisor of the joint weights of these values.
fn divisor(h: &Hyper, values: &[u64]) -> u128
    ensures { IsDivisorOf (hyper_tree h.now) values.now (length values.now) result }
{
    let mut common = 0;
    for k in 0..values.len() {
        common = gcd(common, value_divisor(h, values[k]));
    }
    common
}

// The greatest common divisor of the joint weights of one value.
fn value_divisor(h: &Hyper, x: u64) -> u128
    ensures { IsDivisor (joint (hyper_tree h.now) x) (count (hyper_tree h.now)) result }
{
    let mut common = 0;
    for i in 0..h.count() {
        common = gcd(common, h.weight(i, x));
    }
    common
}

// The factors, in lowest terms, in the ratio of `a_divisor / a_scale` and `b_divisor / b_scale`; none where one passes 2^62.
fn factors(a_divisor: u128, a_scale: u128, b_divisor: u128, b_scale: u128) -> Option<(u128, u128)>
    requires a_divisor { 0 < a_divisor }
    requires a_scale { 0 < a_scale }
    requires b_divisor { 0 < b_divisor }
    requires b_scale { 0 < b_scale }
    ensures some { IfSome result (λ f. AreFactors a_divisor a_scale b_divisor b_scale f.0 f.1) }
    ensures none { result ≡ None → (p : ℕ) × (q : ℕ) × AreFactors a_divisor a_scale b_divisor b_scale p q × ((2 ^ 62 < p) ⊎ (2 ^ 62 < q)) }
{
    let (a_top, a_bottom) = lowest(a_divisor, a_scale);
    let (b_top, b_bottom) = lowest(b_divisor, b_scale);
    let (a_left, b_left) = lowest(a_top, b_top);
    let (a_right, b_right) = lowest(a_bottom, b_bottom);
    let a_factor = narrow_product(a_left, b_right)?;
    let b_factor = narrow_product(b_left, a_right)?;
    Some((a_factor, b_factor))
}

// Two numbers over their greatest common divisor.
fn lowest(x: u128, y: u128) -> (u128, u128)
    requires x { 0 < x }
    requires y { 0 < y }
    ensures lowest { InLowest x y result.0 result.1 }
    ensures left { 0 < result.0 }
    ensures right { 0 < result.1 }
{
    let common = gcd(x, y);
    (x / common, y / common)
}

// The product, where it is at most 2^62.
pub(crate) fn narrow_product(x: u128, y: u128) -> Option<u128>
    ensures { SomeIff result (x * y ≤ 2 ^ 62) (x * y) }
{
    match x.checked_mul(y) {
        Some(product) if product <= 1 << 62 => Some(product),
        _ => None,
    }
}

ghost use Rattle.std.specs.Prelude.{◌≡◌, ◌+◌, ◌-◌, ◌*◌, ◌^◌, ◌<◌, ◌≤◌, ◌↔◌, IfSome, IsSome, SomeIff};
ghost use Rattle.std.specs.Ordering.{nat_cmp};
ghost use Rattle.kf_frac.specs.Fractions.{limit};
ghost use Rattle.kf_frac.specs.Parts.{value_of};

use crate::LIMIT;
use std::cmp::Ordering;

/// A product of two numbers, or a sum of such products, below 2^256. Fractions are compared exactly by such products.
#[derive(Clone, Copy, Debug)]
pub struct Product {
    high: u128,
    low: u128,
}

impl Product {
    /// The exact product.
    pub fn new(a: u128, b: u128) -> Self
        ensures { value_of result ≡ a * b }
    {
        let (low, high) = a.carrying_mul(b, 0);
        Product { high, low }
    }

    /// The order of the two numbers.
    pub fn compare(self, other: Product) -> Ordering
        ensures { result ≡ nat_cmp (value_of self) (value_of other) }
    {
        self.high.cmp(&other.high).then(self.low.cmp(&other.low))
    }

    /// The exact sum, or `None` where that passes 2^256 - 1. Two products of numbers below 2^127 always have one.
    pub fn plus(self, other: Product) -> Option<Product>
        ensures exact { IfSome result (λ sum. value_of sum ≡ value_of self + value_of other) }
        ensures fits { IsSome result ↔ (value_of self + value_of other < 2 ^ 256) }
    {
        let (low, carried) = self.low.carrying_add(other.low, false);
        let (high, passed) = self.high.carrying_add(other.high, carried);
        if passed {
            None
        } else {
            Some(Product { high, low })
        }
    }

    // The sum, where that is within the limit.
    pub(crate) fn sum_in_limit(self, other: Product) -> Option<u128>
        ensures { SomeIff result (value_of self + value_of other ≤ limit) (value_of self + value_of other) }
    {
        let (low, carried) = self.low.carrying_add(other.low, false);
        if self.high == 0 && other.high == 0 && !carried && low <= LIMIT {
            Some(low)
        } else {
            None
        }
    }

    // The difference of this from a smaller one, where that is within the limit.
    pub(crate) fn difference_in_limit(self, other: Product) -> Option<u128>
        requires { value_of other ≤ value_of self }
        ensures { SomeIff result (value_of self - value_of other ≤ limit) (value_of self - value_of other) }
    {
        let (low, borrowed) = self.low.borrowing_sub(other.low, false);
        let (high, _) = self.high.borrowing_sub(other.high, borrowed);
        if high == 0 && low <= LIMIT {
            Some(low)
        } else {
            None
        }
    }
}

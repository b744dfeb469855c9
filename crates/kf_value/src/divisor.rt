ghost use Rattle.std.specs.Prelude.{◌≡◌, ◌≤◌, ◌<◌, ◌+◌, ◌*◌, ◌/◌, ◌%◌, ◌^◌};

/// A number to divide by, with a factor worked out once, so that a quotient takes a product in place of a division.
///
/// The factor is the whole part of `2^(63 + shift) / divisor`, and 1 more, where `2^shift` is at least the divisor. With
/// each `n` below `2^63` its product has, over that power, the same whole part as `n` over the divisor.
#[derive(Drop)]
pub(crate) struct Divisor {
    divisor: u64,
    factor: u64,
    shift: u32,
    ghost some: { 1 ≤ divisor },
    ghost short: { shift < 64 },
    ghost reaches: { divisor ≤ 2 ^ shift },
    ghost above: { 2 ^ (63 + shift) < factor * divisor },
    ghost near: { factor * divisor ≤ 2 ^ (63 + shift) + divisor },
}

impl Divisor {
    pub(crate) fn new(divisor: u64) -> Divisor
        requires some { 1 ≤ divisor }
        requires few { divisor ≤ 2 ^ 63 }
        ensures { result.divisor ≡ divisor }
    {
        let shift = 64 - (divisor - 1).leading_zeros();
        let factor = ((1 << (63 + shift)) / u128::from(divisor)) as u64 + 1;
        Divisor {
            divisor,
            factor,
            shift,
        }
    }

    /// The number that is divided by.
    pub(crate) fn number(&self) -> u64
        ensures { result ≡ self.now.divisor }
    {
        self.divisor
    }

    /// How many whole times the divisor goes into `n`.
    pub(crate) fn quotient(&self, n: u64) -> u64
        requires { n < 2 ^ 63 }
        ensures { result ≡ n / self.now.divisor }
    {
        let high = (u128::from(2 * n) * u128::from(self.factor)) >> 64;
        high as u64 >> self.shift
    }

    /// What is left of `n` behind the divisor's whole times.
    pub(crate) fn remainder(&self, n: u64) -> u64
        requires { n < 2 ^ 63 }
        ensures { result ≡ n % self.now.divisor }
    {
        n - self.quotient(n) * self.divisor
    }
}

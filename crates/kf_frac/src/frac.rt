ghost use Rattle.std.specs.Prelude.{◌≡◌, ◌<◌, ◌≤◌, unsigned_abs};
ghost use Rattle.kf_frac.specs.Divisors.{gcd_of};
ghost use Rattle.kf_frac.specs.Fractions.{limit};

use std::fmt;

/// A fraction in lowest terms, whose parts are at most 2^127 - 1 in absolute value.
#[derive(Clone, Copy, Debug, PartialEq, Eq)]
pub struct Frac {
    pub(crate) num: i128,
    pub(crate) den: u128,
    pub ghost positive: { 0 < den },
    pub ghost num_fits: { unsigned_abs num ≤ limit },
    pub ghost den_fits: { den ≤ limit },
    pub ghost reduced: { gcd_of (unsigned_abs num) den ≡ 1 },
}

impl Frac {
    ghost use Rattle.kf_frac.specs.Views.{num_of, den_of};

    /// The numerator, which has the fraction's sign.
    pub fn num(&self) -> i128
        ensures { result ≡ num_of self.now }
    {
        self.num
    }

    /// The denominator, at least 1.
    pub fn den(&self) -> u128
        ensures { result ≡ den_of self.now }
    {
        self.den
    }
}

/// Writes `-3/4`, and no denominator where that is 1.
impl fmt::Display for Frac {
    ghost use Rattle.std.specs.Prelude.{Some};
    ghost use Rattle.kf_frac.specs.Fractions.{fraction_text};

    ghost output = { λ f. Some (fraction_text f.num f.den) };

    fn fmt<W: fmt::Write>(&self, f: &mut fmt::Formatter<W>) -> fmt::Result {
        let num = self.num;
        let den = self.den;
        write!(f, "{num}")?;
        if den != 1 {
            write!(f, "/{den}")?;
        }
        Ok(())
    }
}

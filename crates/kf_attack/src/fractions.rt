ghost use Rattle.std.specs.Prelude.{◌≤◌, ◌<◌, unsigned_abs};
ghost use Rattle.kf_frac.specs.Fractions.{limit};
ghost use Rattle.kf_frac.specs.Parts.{IsFraction};

use kf_frac::{Frac, make};

// `n / whole` in lowest terms.
pub(crate) fn fraction(n: i128, whole: u128) -> Frac
    requires num { unsigned_abs n ≤ limit }
    requires some { 0 < whole }
    requires den { whole ≤ limit }
    ensures { IsFraction result n whole }
{
    make(n, whole).unwrap()
}

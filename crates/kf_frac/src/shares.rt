ghost use Rattle.std.specs.Prelude.{◌≡◌, ◌<◌, ◌≤◌, pos};
ghost use Rattle.kf_frac.specs.Fractions.{limit, reduced_num, reduced_den};
ghost use Rattle.kf_frac.specs.Views.{num_of, den_of};

use crate::{Frac, make};

/// A part of a whole that is at most 2^127 - 1, as a fraction.
pub fn share(part: u128, whole: u128) -> Frac
    requires within { part ≤ whole }
    requires some { 0 < whole }
    requires narrow { whole ≤ limit }
    ensures num { num_of result ≡ reduced_num (pos part) whole }
    ensures den { den_of result ≡ reduced_den (pos part) whole }
{
    make(part as i128, whole).unwrap()
}

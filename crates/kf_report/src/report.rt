ghost use Rattle.std.specs.Prelude.{◌≡◌, ◌≤◌, ◌<◌, ◌*◌, ℕ, pos, neg_ℤ, ◌<ℤ◌, ◌-ℤ◌, unsigned_abs, IfOk, IsErrOf};
ghost use Rattle.kf_frac.specs.Fractions.{limit};
ghost use Rattle.kf_frac.specs.Views.{num_of, den_of};
ghost use Rattle.kf_hyper.specs.Views.{inners_of, scale_of};
ghost use Rattle.kf_gain.specs.Vulnerabilities.{IsWidth};
ghost use Rattle.kf_frac.specs.Parts.{IsFraction};
ghost use Rattle.kf_gain.specs.Views.{gain_tree};
ghost use Rattle.kf_report.specs.Reports.{Leakage, IsLeakage};
ghost use Rattle.kf_report.specs.Views.{IsNarrow, IsPair, IsQuotient, IsReport};

use kf_frac::{Frac, add, make, mul};
use kf_gain::{Gain, GainFault, gain_laws, posterior, prior};
use kf_hyper::Hyper;
use std::alloc::Global;

/// How much a program leaks: what is to be gained before anything is seen and once a trace is seen.
#[derive(Clone, Copy, Debug, PartialEq, Eq)]
pub struct Report {
    /// The vulnerability before anything is seen; for guessing the number of guesses that is to be expected.
    pub prior: Frac,
    /// The same once a trace is seen.
    pub posterior: Frac,
    /// The posterior divided by the prior; none where the prior isn't above 0.
    pub quotient: Option<Frac>,
    /// The posterior minus the prior; for guessing it is at most 0.
    pub difference: Frac,
}

// Minus a fraction.
fn negated(f: Frac) -> Frac
    ensures num { num_of result ≡ neg_ℤ (num_of f) }
    ensures den { den_of result ≡ den_of f }
{
    make(-f.num(), f.den()).unwrap()
}

// One divided by a fraction above 0.
fn inverse(f: Frac) -> Frac
    requires { pos 0 <ℤ num_of f }
    ensures num { num_of result ≡ pos (den_of f) }
    ensures den { den_of result ≡ unsigned_abs (num_of f) }
{
    make(f.den() as i128, f.num().unsigned_abs()).unwrap()
}

// The posterior minus the prior.
fn difference_of(prior: Frac, posterior: Frac) -> Frac
    requires { (l : Leakage) × IsNarrow l × IsPair l prior posterior }
    ensures { (l : Leakage) → IsNarrow l → IsPair l prior posterior → IsFraction result (l.posterior -ℤ l.prior) l.whole }
{
    add(posterior, negated(prior)).unwrap()
}

// The posterior divided by the prior.
fn quotient_of(prior: Frac, posterior: Frac) -> Option<Frac>
    requires { (l : Leakage) × IsNarrow l × IsPair l prior posterior }
    ensures { (l : Leakage) → IsNarrow l → IsPair l prior posterior → IsQuotient l result }
{
    if prior.num() <= 0 {
        return None;
    }
    Some(mul(posterior, inverse(prior)).unwrap())
}

// The report of these two.
fn whole_report(prior: Frac, posterior: Frac) -> Report
    requires { (l : Leakage) × IsNarrow l × IsPair l prior posterior }
    ensures { (l : Leakage) → IsNarrow l → IsPair l prior posterior → IsReport l result }
{
    Report {
        prior,
        posterior,
        quotient: quotient_of(prior, posterior),
        difference: difference_of(prior, posterior),
    }
}

/// The report of a hyper under a gain.
///
/// `Wide` exactly where the scale times the gain's width passes 2^127 - 1.
pub fn report_of(alloc: Global, h: &Hyper, g: &Gain) -> Result<Report, GainFault>
    ensures is { IfOk result (λ r. (l : Leakage) × IsLeakage (gain_tree g.now) (scale_of h.now) (inners_of h.now) l × IsReport l r) }
    ensures narrow { IfOk result (λ _. (m : ℕ) × IsWidth (gain_tree g.now) (inners_of h.now) m × (scale_of h.now * m ≤ limit)) }
    ensures wide { IsErrOf result GainFault.Wide → (m : ℕ) × IsWidth (gain_tree g.now) (inners_of h.now) m × (limit < scale_of h.now * m) }
{
    gain_laws();
    h.has_shape();
    let prior = prior(alloc, h, g)?;
    let posterior = posterior(alloc, h, g)?;
    Ok(whole_report(prior, posterior))
}

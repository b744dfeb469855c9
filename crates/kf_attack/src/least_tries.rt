//! How many tries reach a vulnerability.

ghost use Rattle.std.specs.Prelude.{◌≡◌, ◌*◌, ◌≤◌, ◌<◌, ◌↔◌, ℕ, pos, ◌<ℤ◌, ◌≤ℤ◌, unsigned_abs, IfOk, IsTrue, sum};
ghost use Rattle.kf_frac.specs.Fractions.{limit};
ghost use Rattle.kf_frac.specs.Views.{num_of, den_of};
ghost use Rattle.kf_hyper.specs.Views.{inners_of, scale_of};
ghost use Rattle.kf_attack.specs.Attacks.{ReachTree, IsReach};
ghost use Rattle.kf_attack.specs.Positions.{IsLeast, tree_of};
ghost use Rattle.kf_attack.specs.Views.{ShowsReach};

use crate::Reach;
use crate::tries::gains_of;
use kf_frac::{Frac, Product, share};
use kf_hyper::Hyper;
use kf_value::Mem;
use std::alloc::Global;

/// Whether a part of the scale is at least what is wanted.
fn is_enough(part: u128, scale: u128, wanted: Frac) -> bool
    ensures { IsTrue result ↔ (unsigned_abs (num_of wanted) * scale ≤ part * den_of wanted) }
{
    let reached = Product::new(part, wanted.den());
    let needed = Product::new(wanted.num().unsigned_abs(), scale);
    reached.compare(needed).is_ge()
}

/// The least number of tries with which their gains come to what is wanted.
fn least(gains: &[u128], scale: u128, wanted: Frac) -> Reach
    requires some { 0 < unsigned_abs (num_of wanted) }
    requires part { unsigned_abs (num_of wanted) ≤ den_of wanted }
    requires positive { 0 < scale }
    requires narrow { scale ≤ limit }
    requires whole { sum gains.now ≡ scale }
    ensures { (tries : ℕ) × IsLeast scale (unsigned_abs (num_of wanted)) (den_of wanted) gains.now tries × ShowsReach scale (tree_of gains.now tries) result }
{
    let mut tries = 0;
    let mut before = 0;
    let mut posterior = 0;
    while !is_enough(posterior, scale, wanted) {
        before = posterior;
        posterior += gains[tries];
        tries += 1;
    }
    Reach {
        tries: tries as u64,
        posterior: share(posterior, scale),
        before: share(before, scale),
    }
}

/// The least number of tries with which the posterior vulnerability of a hyper is at least what is wanted, which is above 0 and at most 1.
pub fn reach_of(alloc: Global, h: &Hyper, wanted: Frac) -> Result<Reach, Mem>
    requires some { pos 0 <ℤ num_of wanted }
    requires part { num_of wanted ≤ℤ pos (den_of wanted) }
    ensures { IfOk result (λ r. (tree : ReachTree) × IsReach (scale_of h.now) (inners_of h.now) (unsigned_abs (num_of wanted)) (den_of wanted) tree
        × ShowsReach (scale_of h.now) tree r) }
{
    let gains = gains_of(alloc, h)?;
    Ok(least(gains.as_slice(), h.scale(), wanted))
}

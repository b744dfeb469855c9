//! Whether one program covers another: refinement of their hypers at full sources.

ghost use Rattle.std.specs.Prelude.{◌≡◌, ◌≢◌, ◌*◌, ◌+◌, ◌≤◌, ℕ, List, length, Err, IfOk, IfErr};
ghost use Rattle.kf_value.specs.Numbers.{target_size};
ghost use Rattle.kf_hyper.specs.Views.{target_of};
ghost use Rattle.kf_refine.specs.Verdicts.{IsVerdict, Proves};
ghost use Rattle.kf_refine.specs.Views.{hyper_tree, verdict_tree};
ghost use Rattle.kf_prior.specs.Covering.{HoldsAtEachPrior};
ghost use Rattle.kf_refine.specs.declared.verdict.RefineError.TheVariants as error;

use kf_hyper::Hyper;
use kf_refine::{RefineError, Verdict, refine};
use std::alloc::Global;

/// Whether the program of the second hyper leaks no more than that of the first, whatever the prior on their initial stores, of which there
/// are so many. Both hypers are those of full sources; all answers are those of `refine`. The matrix of a yes carries at every prior the weights
/// of the one to those of the other: those of a pair all go by what its initial store weighs.
#[tactic(auto, using(crate::proofs::AtEachPrior::holds_at_each_prior))]
pub fn covers(
    alloc: Global,
    a: &Hyper,
    b: &Hyper,
    stores: u64,
    pivots: u32,
) -> Result<Verdict, RefineError>
    requires first { target_size (target_of a.now) ≡ stores * stores }
    requires second { target_size (target_of b.now) ≡ stores * stores }
    ensures at_each_prior { IfOk result (λ v. HoldsAtEachPrior stores (hyper_tree a.now) (hyper_tree b.now) (verdict_tree v)) }
    ensures is { IfOk result (λ v. IsVerdict (hyper_tree a.now) (hyper_tree b.now) pivots (Ok (verdict_tree v))) }
    ensures proves { IfOk result (λ v. Proves (hyper_tree a.now) (hyper_tree b.now) (verdict_tree v)) }
    ensures err { IfErr result (λ e. e ≢ error.Mem → IsVerdict (hyper_tree a.now) (hyper_tree b.now) pivots (Err e)) }
{
    refine(alloc, a, b, pivots)
}

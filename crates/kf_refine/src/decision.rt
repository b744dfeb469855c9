//! The verdict on two hypers.

ghost use Rattle.std.specs.Prelude.{◌≡◌, ◌≢◌, ℕ, List, ◌≤◌, ◌*◌, ◌+◌, length, Ok, Err, IfOk, IfErr};
ghost use Rattle.kf_hyper.specs.Views.{target_of};
ghost use Rattle.kf_simplex.specs.Laws.{ways};
ghost use Rattle.kf_simplex.specs.Views.{sparse};
ghost use Rattle.kf_refine.specs.declared.verdict.RefineError.TheVariants as error;
ghost use Rattle.kf_refine.specs.Equations.{AreEquations, AreKept, cells_of};
ghost use Rattle.kf_refine.specs.Refinements.{count};
ghost use Rattle.kf_refine.specs.Verdicts.{IsVerdict, Proves};
ghost use Rattle.kf_refine.specs.Views.{hyper_tree, verdict_tree};

use crate::cells::count_cells;
use crate::equations::equations;
use crate::kept::kept;
use crate::laws::{one_verdict, verdict_laws};
use crate::matrix::matrix;
use crate::multipliers::table;
use crate::{RefineError, Verdict};
use kf_hyper::Hyper;
use kf_simplex::{Outcome, SimplexError, SparseSystem, solve_sparse};
use kf_value::same_target;
use std::alloc::Global;

/// The most cells that a tableau may have.
const MOST_CELLS: u128 = 4_000_000;

/// Decides whether the second hyper refines the first, that is, leaks no more than it under any gain function (Alvim et al. 2020),
/// within so many pivots of the simplex.
///
/// A yes has the matrix that carries the first hyper's joint weights to the second's, a no the gain table that separates them. That a
/// yes comes exactly where some matrix carries, and a no exactly where none does, is `verdict_laws`. `Targets` comes where the hypers are
/// about different things; `Cells`, `Wide` and `Budget` as the run meets its bounds.
pub fn refine(alloc: Global, a: &Hyper, b: &Hyper, pivots: u32) -> Result<Verdict, RefineError>
    ensures is { IfOk result (λ v. IsVerdict (hyper_tree a.now) (hyper_tree b.now) pivots (Ok (verdict_tree v))) }
    ensures proves { IfOk result (λ v. Proves (hyper_tree a.now) (hyper_tree b.now) (verdict_tree v)) }
    ensures err { IfErr result (λ e. e ≢ error.Mem → IsVerdict (hyper_tree a.now) (hyper_tree b.now) pivots (Err e)) }
    ensures enough { (kept : List ℕ) → AreKept (hyper_tree a.now) (hyper_tree b.now) kept
        → ways (count (hyper_tree a.now) * count (hyper_tree b.now) + (length kept * count (hyper_tree b.now) + count (hyper_tree a.now)))
        (length kept * count (hyper_tree b.now) + count (hyper_tree a.now)) ≤ pivots
        → result ≢ Err error.Budget }
{
    verdict_laws();
    one_verdict();
    decide(alloc, a, b, pivots)
}

// The same, without what the laws say of it.
fn decide(alloc: Global, a: &Hyper, b: &Hyper, pivots: u32) -> Result<Verdict, RefineError>
    ensures is { IfOk result (λ v. IsVerdict (hyper_tree a.now) (hyper_tree b.now) pivots (Ok (verdict_tree v))) }
    ensures err { IfErr result (λ e. e ≢ error.Mem → IsVerdict (hyper_tree a.now) (hyper_tree b.now) pivots (Err e)) }
{
    if !same_target(a.target(), b.target()) {
        return Err(RefineError::Targets);
    }
    let kept = kept(alloc, a, b)?;
    let count = count_cells(kept.len(), a.count(), b.count());
    if count > MOST_CELLS {
        return Err(RefineError::Cells { count });
    }
    let system = equations(alloc, a, b, &kept)?;
    run(alloc, a, b, &kept, system, pivots)
}

// The verdict of the run on the equations of the kept values.
fn run(
    alloc: Global,
    a: &Hyper,
    b: &Hyper,
    kept: &[u64],
    system: SparseSystem,
    pivots: u32,
) -> Result<Verdict, RefineError>
    requires targets { target_of a.now ≡ target_of b.now }
    requires kept { AreKept (hyper_tree a.now) (hyper_tree b.now) kept.now }
    requires few { cells_of (length kept.now) (count (hyper_tree a.now)) (count (hyper_tree b.now)) ≤ 4000000 }
    requires equations { (e : AreEquations (hyper_tree a.now) (hyper_tree b.now) (sparse system)) × (e.values ≡ kept.now) }
    ensures is { IfOk result (λ v. IsVerdict (hyper_tree a.now) (hyper_tree b.now) pivots (Ok (verdict_tree v))) }
    ensures err { IfErr result (λ e. e ≢ error.Mem → IsVerdict (hyper_tree a.now) (hyper_tree b.now) pivots (Err e)) }
{
    match solve_sparse(alloc, system, pivots) {
        Ok(Outcome::Solution(solution)) => Ok(Verdict::Yes(matrix(
            alloc,
            a.count(),
            b.count(),
            &solution,
        )?)),
        Ok(Outcome::Multipliers(multipliers)) => {
            Ok(Verdict::No(table(alloc, kept, b.count(), &multipliers)?))
        }
        Err(SimplexError::Wide { pivots }) => Err(RefineError::Wide { pivots }),
        Err(SimplexError::Budget) => Err(RefineError::Budget),
        Err(SimplexError::Mem) => Err(RefineError::Mem),
    }
}

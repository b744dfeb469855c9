//! Laws of the definitions, each a clause of a function that does nothing.

ghost use Rattle.kf_refine.specs.Laws.{EnoughPivots, IsReflexive, IsTransitive, NothingSeparates};
ghost use Rattle.kf_refine.specs.Laws.{OneVerdict, SomeVerdict, VerdictsDecide, VerdictsProve};

use kf_simplex::{every_run_ends, no_run_is_long, one_result};

/// Refinement is sound for every gain table, reflexive and transitive (Alvim et al. 2020).
pub fn refine_laws()
    ensures nothing_separates { NothingSeparates }
    ensures reflexive { IsReflexive }
    ensures transitive { IsTransitive }
{}

/// What the run answers carries its proof: a yes comes only where some matrix carries, and a no only where none does.
pub fn verdict_laws()
    ensures prove { VerdictsProve }
    ensures decide { VerdictsDecide }
{}

/// Two hypers have exactly one verdict, or cause why there is none; and no more pivots are needed than there are ways to choose the
/// basic columns.
pub fn one_verdict()
    ensures some { SomeVerdict }
    ensures one { OneVerdict }
    ensures enough { EnoughPivots }
{
    one_result();
    every_run_ends();
    no_run_is_long();
}

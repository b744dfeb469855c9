//! Laws of the definitions, each a clause of a function that does nothing.

ghost use Rattle.kf_order.specs.Channels.{CapacityIsLeaked, CascadeLeaksNoMore, HyperIsWorthColumns, LeakageIsBounded, SomeSeen};
ghost use Rattle.kf_order.specs.Order.{IsAntisymmetric, RefinementLeaksNoMore};
ghost use Rattle.kf_order.specs.Structure.{IsStructural};
ghost use Rattle.kf_refine.specs.Laws.{IsReflexive, IsTransitive};

use kf_refine::refine_laws;

/// Laws of refinement: whatever the adversary wants, by a table, by guesses at once or by guesses in turn, a refinement leaks no more; and
/// refinement is a partial order of hypers (Alvim et al. 2020).
pub fn refinement_laws()
    ensures no_more { RefinementLeaksNoMore }
    ensures reflexive { IsReflexive }
    ensures transitive { IsTransitive }
    ensures antisymmetric { IsAntisymmetric }
{
    refine_laws();
}

/// Laws of channels one behind the other: whatever the prior and whatever the adversary wants, also where gains are below 0, no more is
/// leaked by what stands behind a channel (Alvim et al. 2020, data processing). There is something to be seen at each column, and a hyper
/// is worth what its columns are.
pub fn cascade_laws()
    ensures hyper { HyperIsWorthColumns }
    ensures seen { SomeSeen }
    ensures no_more { CascadeLeaksNoMore }
{}

/// Laws of the channel and the hyper of one joint: where no gain is below 0, the posterior vulnerability is at most the prior one times the
/// channel's Bayes capacity; and for one guess, where all secrets weigh the same, it is exactly that (Alvim et al. 2020, miracle).
pub fn leakage_laws()
    ensures bounded { LeakageIsBounded }
    ensures met { CapacityIsLeaked }
{}

/// Refinement is structural: what one channel leaks beside another doesn't depend on the prior. Where the hyper of the one is refined by that
/// of the other, no gain table separates the hypers that two channels of the same matrices have at any other prior of the same secrets
/// (Alvim et al. 2020, refinement of channels).
pub fn structural_laws()
    ensures structural { IsStructural }
{}

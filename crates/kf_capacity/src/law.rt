ghost use Rattle.kf_capacity.specs.Laws.{LeastDenominator, CapacityBounds, CapacityIsMet, NothingIsGained, CascadeIsBounded};
ghost use Rattle.kf_capacity.specs.Laws.{ParallelIsBounded, ChoiceIsMean, CascadeIsStochastic, ParallelIsStochastic, ChoiceIsStochastic};

/// Laws of the definitions: whatever the prior and the gain, a look at a channel multiplies the vulnerability by no more than its Bayes
/// capacity, and for secrets of equal weight and one guess by exactly that (Alvim et al. 2020, the miracle theorem).
pub fn capacity_laws()
    ensures bounds { CapacityBounds }
    ensures met { CapacityIsMet }
{}

/// Laws of the definitions: whatever the prior and the gain, nothing is gained by what stands behind a channel (data processing), and the
/// capacity of a cascade is at most each of the two; that of two channels side by side is at most their product, and that of a choice is
/// their weighted mean (Alvim et al. 2020).
pub fn composition_laws()
    ensures gained { NothingIsGained }
    ensures cascade { CascadeIsBounded }
    ensures parallel { ParallelIsBounded }
    ensures choice { ChoiceIsMean }
{}

/// Laws of the definitions: a channel's denominator is the least one that its cells have in common, and the numbers of each secret in a
/// composed grid sum to its denominator.
pub fn grid_laws()
    ensures denominator { LeastDenominator }
    ensures cascade { CascadeIsStochastic }
    ensures parallel { ParallelIsStochastic }
    ensures choice { ChoiceIsStochastic }
{}

ghost use Rattle.kf_attack.specs.Laws.{ShownIsBest, WorthsSum, SomeAttacks, OneAttacks, SomeReach, OneReach, MoreTries};

/// Laws of the definitions: no action, no set of values and no order does better than what is shown; what the inners are worth comes, by
/// their outers, to the posterior vulnerability; and inners have exactly one attack each.
pub fn attack_laws()
    ensures best { ShownIsBest }
    ensures sum { WorthsSum }
    ensures some { SomeAttacks }
    ensures one { OneAttacks }
{}

/// Laws of the definitions: more tries are never worse, and what is wanted is reached with exactly one least number of them.
pub fn reach_laws()
    ensures more { MoreTries }
    ensures some { SomeReach }
    ensures one { OneReach }
{}

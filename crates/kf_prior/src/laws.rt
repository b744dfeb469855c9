ghost use Rattle.kf_prior.specs.Laws.{CarriesForAllPriors, FullBeginsUniformly, FullIsBuilt, FullTargetIsSquare, SeparatesAtUniform};

use kf_check::type_laws;
use kf_core::run_laws;

/// Laws of the definitions: the declarations of a full source lead to each initial store once, all equally likely; it could be read as a
/// source; and its target has a value for each pair of stores. It does nothing when it runs.
pub fn full_laws()
    ensures begins { FullBeginsUniformly }
    ensures built { FullIsBuilt }
    ensures square { FullTargetIsSquare }
{
    type_laws();
}

/// Laws of the definitions: a matrix that carries the hyper of one full source to that of another keeps the second from leaking more at any
/// prior and under any gain table, and a table that separates them does so at the uniform prior. It does nothing when it runs.
pub fn prior_laws()
    ensures carries { CarriesForAllPriors }
    ensures separates { SeparatesAtUniform }
{
    full_laws();
    type_laws();
    run_laws();
}

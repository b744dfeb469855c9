ghost use Rattle.kf_support.specs.Carried.{CarryTells, NothingLeadsNowhere};

use kf_core::{choice_laws, run_laws};

/// The pass with scales tells the faults of the support pass and the scale of all runs.
pub(crate) fn carry_laws()
    ensures tells { CarryTells }
    ensures nothing { NothingLeadsNowhere }
{
    choice_laws();
    run_laws();
}

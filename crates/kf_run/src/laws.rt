ghost use Rattle.kf_run.specs.Laws.{OnlyOneTrail, SomeTrail};

use kf_column::one_hyper;
use kf_core::joint_laws;

/// Laws of the definitions: every program has exactly one trail. It does nothing when it runs.
pub fn trail_laws()
    ensures some { SomeTrail }
    ensures only { OnlyOneTrail }
{
    joint_laws();
    one_hyper();
}

ghost use Rattle.kf_push.specs.Merging.{BlocksChain, MergingCommutes, NoTraceGoesOn, OnlyOneBehind, SomeAreBehind};

use kf_column::one_hyper;
use kf_core::{choice_laws, joint_laws, run_laws};

/// Why columns may be merged on the way: what stands behind statements comes to the same beliefs whether columns of one
/// posterior were added up before them or not. It does nothing when it runs.
///
/// It rests on two facts about traces: none goes on in another, and to push through one block and then another is to push
/// through both as one.
pub fn merge_law()
    ensures splits { NoTraceGoesOn }
    ensures some { SomeAreBehind }
    ensures only { OnlyOneBehind }
    ensures chain { BlocksChain }
    ensures commutes { MergingCommutes }
{
    choice_laws();
    run_laws();
    joint_laws();
    one_hyper();
}

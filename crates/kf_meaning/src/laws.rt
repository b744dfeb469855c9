ghost use Rattle.kf_meaning.specs.Channels.{
  CascadeIsProduct,
  FirstMarginal,
  ParallelHasPairs,
  ParallelIsIndependent,
  PlacesShowSecrets,
  SecondMarginal,
};
ghost use Rattle.kf_meaning.specs.Choosing.{AndSkips, CondSkips, FirstIsAsked, OperatedIsApplied, OrSkips};
ghost use Rattle.kf_meaning.specs.Faults.{BlockFaultIsFirst, FirstFaultOfRuns, FirstFaultOfProgram, NoFaultBefore};
ghost use Rattle.kf_meaning.specs.Trails.{LastCountBounds, LastCountIsMet};

use kf_column::{one_hyper, projection_laws};
use kf_core::{choice_laws, joint_laws, run_laws};

/// Laws of the definitions: the reported fault of a program or a block is that of the shortest prefix of its statements which has one, by
/// the pass over sets of stores and by the runs themselves. It does nothing when it runs.
pub fn first_faults()
    ensures block { BlockFaultIsFirst }
    ensures program { FirstFaultOfProgram }
    ensures none { NoFaultBefore }
    ensures runs { FirstFaultOfRuns }
{
    run_laws();
}

/// Laws of the definitions: a cascade is the matrix product of its channels, by the secret whose values a trace shows; side by side,
/// what a secret shows in one channel is independent of the other, and so what either shows, summed up, leaves the other channel. It
/// does nothing when it runs.
pub fn channel_products()
    ensures cascade { CascadeIsProduct }
    ensures places { PlacesShowSecrets }
    ensures parallel { ParallelIsIndependent }
    ensures pairs { ParallelHasPairs }
    ensures first { FirstMarginal }
    ensures second { SecondMarginal }
{}

/// Laws of the definitions: where all arguments have values, `or`, `and` and `cond` give what the table of operators gives, as every
/// operator does; what doesn't decide has no part in the result, and the first argument always has. It does nothing when it runs.
pub fn operator_choices()
    ensures values { OperatedIsApplied }
    ensures or_skips { OrSkips }
    ensures and_skips { AndSkips }
    ensures cond_skips { CondSkips }
    ensures first { FirstIsAsked }
{}

/// Laws of the definitions: the last count of a trail is at least the number of inners of the program's hyper, and is that number where
/// the target is all variables and copies. It does nothing when it runs.
pub fn last_counts()
    ensures bounds { LastCountBounds }
    ensures met { LastCountIsMet }
{
    one_hyper();
    projection_laws();
    choice_laws();
    run_laws();
    joint_laws();
}

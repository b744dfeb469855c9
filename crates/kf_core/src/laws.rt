ghost use Rattle.kf_core.specs.Laws.{KeepsKinds, SetsHoldMembers, StoresHaveKinds};
ghost use Rattle.kf_core.specs.ChoiceLaws.{ChoicesAreShares, ChoicesKeepKinds};
ghost use Rattle.kf_core.specs.JointLaws.{HypersAreOne, HypersExist, JointIsWhole, RowsAreOne, RowsExist};
ghost use Rattle.kf_core.specs.SupportLaws.{
  BlockAgrees,
  CommonScaleIsLeast,
  FaultIsOfARun,
  LeastStoreFaults,
  PassAgrees,
  ProgramAgrees,
  RunsChain,
  ScalesArePositive,
};

use kf_column::one_hyper;
use kf_ops::row_laws;

/// What holds of the definitions alone: the values of a store are of the kinds of its types, and where they are, a
/// checked expression has a fault or a well-formed value of its kind; a set has exactly the members that are listed, in
/// ascending order. It does nothing when it runs.
pub fn evaluation_laws()
    ensures stores { StoresHaveKinds }
    ensures kinds { KeepsKinds }
    ensures members { SetsHoldMembers }
{
    row_laws();
}

/// What holds of choices: they are the listed values, each once and ascending, with weights in lowest terms, and those of a
/// checked distribution are values of its kind. It does nothing when it runs.
pub fn choice_laws()
    ensures shares { ChoicesAreShares }
    ensures kinds { ChoicesKeepKinds }
{
    row_laws();
}

/// What ties the support pass, the runs and the scale: the pass over a set of stores meets no fault exactly where no run from
/// one of them does, and then it reaches the stores where those runs end; a told fault is one at which some run stops, and at
/// one step that of the least store which has one; a block's runs are the runs of its parts, chained; the scale is the least
/// number that every run's scale divides. It does nothing when it runs.
pub fn run_laws()
    ensures statement { PassAgrees }
    ensures block { BlockAgrees }
    ensures program { ProgramAgrees }
    ensures fault { FaultIsOfARun }
    ensures first { LeastStoreFaults }
    ensures sequence { RunsChain }
    ensures positive { ScalesArePositive }
    ensures least { CommonScaleIsLeast }
{
    choice_laws();
}

/// What holds of joints: the joint weights of a checked program that meets no fault add up to its scale, and each list of
/// cells has exactly one list of rows and one hyper. It does nothing when it runs.
pub fn joint_laws()
    ensures whole { JointIsWhole }
    ensures rows { RowsExist }
    ensures one_rows { RowsAreOne }
    ensures hyper { HypersExist }
    ensures one_hyper { HypersAreOne }
{
    one_hyper();
    choice_laws();
    run_laws();
}

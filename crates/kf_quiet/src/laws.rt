ghost use Rattle.kf_quiet.specs.Laws.{NoBlamePasses, OnlyOneBlames, QuietLeaksNoMore, SomeBlames, SomeQuiet};
ghost use Rattle.kf_quiet.specs.SilentLaws.{NoneLeaksMore, SilentLeaksNoMore, SilentWidth};

use kf_core::{joint_laws, run_laws};
use kf_gain::gain_laws;

/// Laws of the definitions: whatever the adversary wants, nothing more is leaked where a block is quiet; so no blame passes that of the
/// whole program. It does nothing when it runs.
pub fn quiet_laws()
    ensures no_more { QuietLeaksNoMore }
    ensures blames { NoBlamePasses }
{
    run_laws();
}

/// Laws of the definitions: every program has a hyper with any of its blocks quiet, and exactly one list of blames. It does nothing when
/// it runs.
pub fn blame_laws()
    ensures quiet { SomeQuiet }
    ensures some { SomeBlames }
    ensures only { OnlyOneBlames }
{
    joint_laws();
    gain_laws();
}

/// Laws of the definitions: a gain is as wide, whichever statements are silent; and whatever the adversary wants, no more is leaked where more is
/// silent. It does nothing when it runs.
pub fn silent_gain_laws()
    ensures width { SilentWidth }
    ensures no_more { SilentLeaksNoMore }
    ensures none_more { NoneLeaksMore }
{}

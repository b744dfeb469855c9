ghost use Rattle.kf_silent.specs.Laws.{LeftOfTraces, NoSilentTraceGoesOn, NothingIsSilent, OneIsQuiet, OneSilent, SilentIsQuiet, SilentSameAverage, SomeSilent};

use kf_core::joint_laws;

/// Laws of the definitions: where a range of outermost statements is silent, the joint is that of the program with this block quiet, and
/// where nothing is, the program's own. What is left of a trace goes on in no other, and is a function of what was left where less was
/// silent. It does nothing when it runs.
pub fn silent_laws()
    ensures nothing { NothingIsSilent }
    ensures quiet { SilentIsQuiet }
    ensures one { OneIsQuiet }
    ensures splits { NoSilentTraceGoesOn }
    ensures left { LeftOfTraces }
{}

/// Laws of silent hypers: every program has exactly one, whichever statements are silent, and what is known before anything is seen is that of
/// the whole program. It does nothing when it runs.
pub fn silent_hypers()
    ensures some { SomeSilent }
    ensures only { OneSilent }
    ensures average { SilentSameAverage }
{
    joint_laws();
}

//! The hyper-distribution, the traces, the channel and the trail of a cleared program, and the program that is made.

ghost use Rattle.std.specs.Prelude.{◌≤◌, IfErr};
ghost use Rattle.kf_core.specs.Joint.{joint_of};
ghost use Rattle.kf_core.specs.Scale.{scale_of};
ghost use Rattle.kf_load.specs.Steps.{After, Gives};
ghost use Rattle.kf_load.specs.Views.{program_in};
ghost use Rattle.kf_support.specs.Cleared.{turns_of};
ghost use Rattle.kf_top.specs.Answer.{HyperOf, initial};
ghost use Rattle.kf_top.specs.Stops.{Answers, IsOwn};
ghost use Rattle.kf_top.specs.Views.{shown};
ghost use Rattle.kf_top.specs.Steps.{TracesOf, TrailOf, ChannelOf, MadeOutcome};

use crate::capacity::channel_in;
use crate::refusal::{Done, Stop};
use kf_make::{made, made_laws};
use kf_run::{hyper_of, trail as trail_of};
use kf_support::Cleared;
use kf_text::{channel_text, hyper_text, make_text, trace_text, trail_text};
use kf_traces::table;
use std::alloc::Global;

/// The hyper-distribution.
pub(crate) fn hyper<'a>(alloc: Global, cleared: &Cleared) -> Result<Done, Stop<'a>>
    ensures answer { Answers shown result
        (HyperOf (program_in cleared.now).target (scale_of (turns_of cleared.now) (program_in cleared.now)) (joint_of (turns_of cleared.now) (program_in cleared.now))) }
    ensures read { IfErr result IsOwn }
{
    let hyper = hyper_of(alloc, cleared)?;
    let bytes = hyper_text(alloc, &hyper)?;
    Ok(Done { yes: true, bytes })
}

/// The traces, each with its column.
pub(crate) fn traces<'a>(alloc: Global, cleared: &Cleared) -> Result<Done, Stop<'a>>
    ensures answer { Answers shown result
        (TracesOf (program_in cleared.now).target (scale_of (turns_of cleared.now) (program_in cleared.now)) (joint_of (turns_of cleared.now) (program_in cleared.now))) }
    ensures read { IfErr result IsOwn }
{
    let table = table(alloc, cleared)?;
    let bytes = trace_text(alloc, &table)?;
    Ok(Done { yes: true, bytes })
}

/// The channel matrix.
pub(crate) fn channel<'a>(alloc: Global, cleared: &Cleared) -> Result<Done, Stop<'a>>
    ensures answer { Answers shown result
        (After (Gives (initial (program_in cleared.now))) (λ p. ChannelOf p.target (joint_of (turns_of cleared.now) p))) }
    ensures read { IfErr result IsOwn }
{
    let channel = channel_in(alloc, cleared)?;
    let bytes = channel_text(alloc, &channel)?;
    Ok(Done { yes: true, bytes })
}

/// How many posteriors there are after each statement.
pub(crate) fn trail<'a>(alloc: Global, cleared: &Cleared) -> Result<Done, Stop<'a>>
    ensures answer { Answers shown result (TrailOf (turns_of cleared.now) (program_in cleared.now)) }
    ensures read { IfErr result IsOwn }
{
    let counts = trail_of(alloc, cleared)?;
    let bytes = trail_text(alloc, &counts)?;
    Ok(Done { yes: true, bytes })
}

/// The hyper-distribution of `count` noisy observations, which stand in no file.
pub(crate) fn made_hyper<'a>(alloc: Global, count: u32, turns: u32) -> Result<Done, Stop<'a>>
    requires few { count ≤ 60 }
    requires some_turns { 1 ≤ turns }
    requires few_turns { turns ≤ 65535 }
    ensures answer { Answers shown result (MadeOutcome count turns) }
    ensures read { IfErr result IsOwn }
{
    made_laws();
    let cleared = made(alloc, count, turns)?;
    let hyper = hyper_of(alloc, &cleared);
    drop(cleared);
    let hyper = hyper?;
    let bytes = make_text(alloc, count, &hyper)?;
    Ok(Done { yes: true, bytes })
}

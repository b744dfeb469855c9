//! A program of which a block of statements shows nothing, and how much each statement in turn shows.

ghost use Rattle.std.specs.Prelude.{◌≤◌, ◌<◌, length, IfErr};
ghost use Rattle.kf_core.specs.Scale.{scale_of};
ghost use Rattle.kf_load.specs.Views.{program_in};
ghost use Rattle.kf_support.specs.Cleared.{turns_of};
ghost use Rattle.kf_silent.specs.Quiet.{quiet_joint};
ghost use Rattle.kf_top.specs.Answer.{HyperOf};
ghost use Rattle.kf_top.specs.Stops.{Answers, IsOwn};
ghost use Rattle.kf_top.specs.Views.{shown};
ghost use Rattle.kf_top.specs.Steps.{BlameOf};

use crate::refusal::{Done, Stop};
use kf_quiet::{blame_of, quiet_hyper};
use kf_run::PushingRef;
use kf_support::Cleared;
use kf_text::{blame_text, hyper_text};
use std::alloc::Global;

/// The hyper-distribution of a cleared program whose statements from the one at `from` on, up to but not with the one at `to`, show nothing.
pub(crate) fn quiet<'a>(
    alloc: Global,
    cleared: &Cleared,
    from: u32,
    to: u32,
) -> Result<Done, Stop<'a>>
    requires some { from < to }
    requires within { to ≤ length (program_in cleared.now).body }
    ensures answer { Answers shown result
        (HyperOf (program_in cleared.now).target (scale_of (turns_of cleared.now) (program_in cleared.now)) (quiet_joint (turns_of cleared.now) (program_in cleared.now) from to)) }
    ensures read { IfErr result IsOwn }
{
    let pushing = PushingRef::new(cleared);
    let hyper = quiet_hyper(alloc, &pushing, from as usize, to as usize)?;
    let bytes = hyper_text(alloc, &hyper)?;
    Ok(Done { yes: true, bytes })
}

/// How much is seen of a cleared program, and how much where each statement in turn shows nothing.
pub(crate) fn blame<'a>(alloc: Global, cleared: &Cleared) -> Result<Done, Stop<'a>>
    ensures answer { Answers shown result (BlameOf (turns_of cleared.now) (program_in cleared.now)) }
    ensures read { IfErr result IsOwn }
{
    let pushing = PushingRef::new(cleared);
    let blames = blame_of(alloc, &pushing)?;
    let bytes = blame_text(alloc, &blames)?;
    Ok(Done { yes: true, bytes })
}

//! The capacities of channels, and of what is put together of two.

ghost use Rattle.std.specs.Prelude.{◌≡◌, ◌<◌, Ok, IfErr, IfOk, IfSome};
ghost use Rattle.kf_load.specs.Views.{program_in};
ghost use Rattle.kf_support.specs.Cleared.{turns_of};
ghost use Rattle.kf_capacity.specs.Grids.{ChannelTree, channel_grid};
ghost use Rattle.kf_capacity.specs.Views.{channel_tree, grid_tree};
ghost use Rattle.kf_load.specs.Steps.{After, Gives};
ghost use Rattle.kf_top.specs.Answer.{Composed, ComposedIn, IsChannelTree, initial};
ghost use Rattle.kf_top.specs.Steps.{CapacityIn, algebra_shown};
ghost use Rattle.kf_top.specs.CapacityViews.{way_of, CapacityAnswers, ChannelIn};
ghost use Rattle.kf_words.specs.Task.{Cascade, Choice, Compose, Parallel};
ghost use Rattle.kf_top.specs.Stops.{Answers, IsOwn};
ghost use Rattle.kf_top.specs.Views.{shown};
ghost use Rattle.kf_words.specs.Jobs.{IsInRange};

use crate::refusal::{Done, Refusal, Stop, beside};
use kf_capacity::{
    CascadeFault, ChoiceFault, Grid, GridFault, ParallelFault, capacity as grid_capacity,
    capacity_of_hyper, cascade, choice, grid_of, parallel,
};
use kf_channel::{Channel, ChannelError, channel_of, is_initial};
use kf_frac::Frac;
use kf_load::Pair;
use kf_run::hyper_of;
use kf_support::Cleared;
use kf_text::{algebra_text, capacity_text};
use kf_traces::table;
use kf_value::Mem;
use std::alloc::Global;

/// How two channels are put together.
#[derive(Clone, Copy)]
pub enum Composition {
    /// One after the other.
    Cascade,
    /// In parallel.
    Parallel,
    /// The first with probability `num / den`, else the second.
    Choice { num: u32, den: u32 },
}

/// The channel of a cleared program.
pub(crate) fn channel_in<'a>(alloc: Global, cleared: &Cleared) -> Result<Channel, Stop<'a>>
    ensures answer { Answers channel_tree result (ChannelIn (turns_of cleared.now) (program_in cleared.now)) }
    ensures read { IfErr result IsOwn }
{
    let table = table(alloc, cleared)?;
    match channel_of(alloc, &table) {
        Ok(channel) => Ok(channel),
        Err(ChannelError::NotInitial) => Err(Stop::Refused(Refusal::NotInitial)),
        Err(ChannelError::Mem) => Err(Stop::Mem),
    }
}

// The capacity of a grid.
fn capacity_of_grid<'a>(grid: &Grid) -> Result<Frac, Stop<'a>>
    ensures answer { CapacityAnswers result (grid_tree grid.now) }
    ensures read { IfErr result IsOwn }
{
    match grid_capacity(grid) {
        Ok(capacity) => Ok(capacity),
        Err(_) => Err(Stop::Refused(Refusal::WideChannel)),
    }
}

// The capacity of a channel.
fn capacity_of_channel<'a>(alloc: Global, channel: &Channel) -> Result<Frac, Stop<'a>>
    ensures answer { CapacityAnswers result (channel_grid (channel_tree channel.now)) }
    ensures read { IfErr result IsOwn }
{
    match grid_of(alloc, channel) {
        Ok(grid) => capacity_of_grid(&grid),
        Err(GridFault::Wide) => Err(Stop::Refused(Refusal::WideChannel)),
        Err(GridFault::Mem) => Err(Stop::Mem),
    }
}

// The capacity of a program's channel from the inners of the program's hyper, where they tell it: no trace is kept.
fn belief_capacity(alloc: Global, cleared: &Cleared) -> Result<Option<Frac>, Mem>
    ensures { IfOk result (λ found. IfSome found (λ f. (c : ChannelTree) × IsChannelTree (turns_of cleared.now) (program_in cleared.now) c
        × CapacityAnswers (Ok f) (channel_grid c))) }
{
    let hyper = hyper_of(alloc, cleared)?;
    let found = capacity_of_hyper(alloc, &hyper)?;
    Ok(found)
}

// The printed capacity of a program's channel, from its traces.
fn trace_capacity<'a>(alloc: Global, cleared: &Cleared) -> Result<Done, Stop<'a>>
    ensures answer { Answers shown result (After (Gives (initial (program_in cleared.now))) (CapacityIn (turns_of cleared.now))) }
    ensures read { IfErr result IsOwn }
{
    let channel = channel_in(alloc, cleared)?;
    let capacity = capacity_of_channel(alloc, &channel)?;
    let bytes = capacity_text(alloc, capacity)?;
    Ok(Done { yes: true, bytes })
}

/// The Bayes capacity of the channel of a cleared program.
pub(crate) fn capacity<'a>(alloc: Global, cleared: &Cleared) -> Result<Done, Stop<'a>>
    ensures answer { Answers shown result (After (Gives (initial (program_in cleared.now))) (CapacityIn (turns_of cleared.now))) }
    ensures read { IfErr result IsOwn }
{
    if !is_initial(cleared.program().target.items.as_slice()) {
        return Err(Stop::Refused(Refusal::NotInitial));
    }
    match belief_capacity(alloc, cleared)? {
        Some(capacity) => {
            let bytes = capacity_text(alloc, capacity)?;
            Ok(Done { yes: true, bytes })
        }
        None => trace_capacity(alloc, cleared),
    }
}

// One channel after the other.
fn cascaded<'a>(alloc: Global, c: &Channel, d: &Channel) -> Result<Grid, Stop<'a>>
    ensures answer { Answers grid_tree result (Composed Cascade (channel_tree c.now) (channel_tree d.now)) }
    ensures read { IfErr result IsOwn }
{
    match cascade(alloc, c, d) {
        Ok(grid) => Ok(grid),
        Err(CascadeFault::Fit) => Err(Stop::Refused(Refusal::NoFit)),
        Err(CascadeFault::Wide) => Err(Stop::Refused(Refusal::WideChannel)),
        Err(CascadeFault::Mem) => Err(Stop::Mem),
    }
}

// Two channels in parallel.
fn in_parallel<'a>(alloc: Global, c: &Channel, d: &Channel) -> Result<Grid, Stop<'a>>
    ensures answer { Answers grid_tree result (Composed Parallel (channel_tree c.now) (channel_tree d.now)) }
    ensures read { IfErr result IsOwn }
{
    match parallel(alloc, c, d) {
        Ok(grid) => Ok(grid),
        Err(ParallelFault::Targets) => Err(Stop::Refused(Refusal::OtherTarget)),
        Err(ParallelFault::Rows) => Err(Stop::Refused(Refusal::OtherRows)),
        Err(ParallelFault::Cells { count }) => Err(Stop::Refused(Refusal::ManyChannelCells(count))),
        Err(ParallelFault::Wide) => Err(Stop::Refused(Refusal::WideChannel)),
        Err(ParallelFault::Mem) => Err(Stop::Mem),
    }
}

// The first channel with probability `num / den`, else the second.
fn chosen<'a>(alloc: Global, c: &Channel, d: &Channel, num: u32, den: u32) -> Result<Grid, Stop<'a>>
    requires some { 0 < num }
    requires part { num < den }
    ensures answer { Answers grid_tree result (Composed (Choice num den) (channel_tree c.now) (channel_tree d.now)) }
    ensures read { IfErr result IsOwn }
{
    match choice(alloc, c, d, num, den) {
        Ok(grid) => Ok(grid),
        Err(ChoiceFault::Targets) => Err(Stop::Refused(Refusal::OtherTarget)),
        Err(ChoiceFault::Rows) => Err(Stop::Refused(Refusal::OtherRows)),
        Err(ChoiceFault::Wide) => Err(Stop::Refused(Refusal::WideChannel)),
        Err(ChoiceFault::Mem) => Err(Stop::Mem),
    }
}

// What is put together of two channels.
fn composed<'a>(alloc: Global, c: &Channel, d: &Channel, way: Composition) -> Result<Grid, Stop<'a>>
    requires { IsInRange (Compose (way_of way)) }
    ensures answer { Answers grid_tree result (Composed (way_of way) (channel_tree c.now) (channel_tree d.now)) }
    ensures read { IfErr result IsOwn }
{
    match way {
        Composition::Cascade => cascaded(alloc, c, d),
        Composition::Parallel => in_parallel(alloc, c, d),
        Composition::Choice { num, den } => chosen(alloc, c, d, num, den),
    }
}

// The capacities of two channels, and of what was put together of them.
fn algebra<'a>(
    alloc: Global,
    first: &Channel,
    second: &Channel,
    both: &Grid,
) -> Result<Done, Stop<'a>>
    ensures answer { Answers shown result (Gives (algebra_shown
        (channel_grid (channel_tree first.now)) (channel_grid (channel_tree second.now)) (grid_tree both.now))) }
    ensures read { IfErr result IsOwn }
{
    let first_capacity = capacity_of_channel(alloc, first)?;
    let second_capacity = capacity_of_channel(alloc, second)?;
    let capacity = capacity_of_grid(both)?;
    let bytes = algebra_text(alloc, both, first_capacity, second_capacity, capacity)?;
    Ok(Done { yes: true, bytes })
}

// Two channels put together, with all three capacities.
fn put_together<'a>(
    alloc: Global,
    first: &Channel,
    second: &Channel,
    way: Composition,
) -> Result<Done, Stop<'a>>
    requires { IsInRange (Compose (way_of way)) }
    ensures answer { Answers shown result (After (Composed (way_of way) (channel_tree first.now) (channel_tree second.now)) (λ both.
        Gives (algebra_shown (channel_grid (channel_tree first.now)) (channel_grid (channel_tree second.now)) both))) }
    ensures read { IfErr result IsOwn }
{
    let both = composed(alloc, first, second, way)?;
    algebra(alloc, first, second, &both)
}

/// The capacities of the channels of two cleared programs, and of what is put together of them.
pub(crate) fn composed_capacities<'a>(
    alloc: Global,
    pair: &Pair,
    way: Composition,
) -> Result<Done, Stop<'a>>
    requires turns { turns_of pair.now.first ≡ turns_of pair.now.second }
    requires proper { IsInRange (Compose (way_of way)) }
    ensures answer { Answers shown result (After (Gives (initial (program_in pair.now.first))) (λ p.
        After (Gives (initial (program_in pair.now.second))) (λ q. ComposedIn (way_of way) (turns_of pair.now.first) p q))) }
    ensures read { IfErr result IsOwn }
{
    let first = channel_in(alloc, &pair.first)?;
    let (second, first) = beside(channel_in(alloc, &pair.second), first)?;
    let done = put_together(alloc, &first, &second, way);
    drop(first);
    drop(second);
    done
}

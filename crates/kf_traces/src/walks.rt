//! What becomes of a state in statements, and of the first store in a whole program.

ghost use Rattle.std.specs.Prelude.{◌≡◌, ◌^◌, ◌<◌, length, map, flat_map, IfOk, IfSome, OnOk};
ghost use Rattle.std.specs.List.{All};
ghost use Rattle.kf_value.specs.Kinds.{KindTree, TruthKind};
ghost use Rattle.kf_value.specs.Shapes.{shape_size, shape_types, shape_sizes};
ghost use Rattle.kf_value.specs.Types.{product};
ghost use Rattle.kf_core.specs.Checked.{AreSound, DistKinded, IsChecked, IsSound};
ghost use Rattle.kf_core.specs.Views.{dx_tree, st_tree, program_tree};
ghost use Rattle.kf_core.specs.Runs.{tried};
ghost use Rattle.kf_core.specs.Sts.{sts};
ghost use Rattle.kf_eval.specs.Kinds.{shape_kinds};
ghost use Rattle.kf_eval.specs.Memos.{IsMemoOf};
ghost use Rattle.kf_support.specs.Cleared.{program_of, turns_of, whole_scale};
ghost use Rattle.kf_support.specs.Moves.{store_behind as lead_of};
ghost use Rattle.kf_traces.specs.Traced.{alone, all_traced, assign_traced, assignment_traced, loop_traced, program_traced, traced};
ghost use Rattle.kf_traces.specs.Views.{traced_of, AllFit, Fits};
ghost use Rattle.kf_traces.specs.Visits.{Asks, asks_again, first_of, leaked, visit_of, visitor, visits_next};

use crate::assigns::{assign, copy};
use crate::states::{State, all_behind, ends_true};
use crate::steps::split;
use kf_core::{Dx, Program, St};
use kf_eval::Memo;
use kf_support::Cleared;
use kf_value::{Mem, Shape};
use std::alloc::Global;

/// A state on its way through a loop.
#[derive(Drop)]
enum Visit {
    /// It has left the loop.
    Left(State),
    /// It asks the guard, and has so many turns to come.
    Asks(State, u32),
}

/// The state and no other.
fn only(alloc: Global, state: State) -> Result<Vec<State>, Mem>
    ensures { IfOk result (λ ss. map traced_of ss.items ≡ alone (traced_of state)) }
{
    let mut states = Vec::new(alloc);
    states.push(state)?;
    Ok(states)
}

/// The state with its stores assigned. `memo` keeps what the distribution chooses.
fn assigned(
    alloc: Global,
    shape: &Shape,
    slot: usize,
    dist: &Dx,
    memo: &mut Memo,
    from: State,
) -> Result<State, Mem>
    requires variable { slot < length (shape_types shape.now) }
    requires kinded { (k : KindTree) × DistKinded (shape_kinds shape.now) (dx_tree dist.now) k }
    requires memo { IsMemoOf shape.now (dx_tree dist.now) memo.old }
    requires fits { Fits (shape_size shape.now) (traced_of from).stores }
    ensures memo { OnOk result (IsMemoOf shape.now (dx_tree dist.now) memo.new) }
    ensures assigned { IfOk result (λ s. alone (traced_of s) ≡ assign_traced (shape_types shape.now) slot (dx_tree dist.now) (traced_of from)) }
    ensures fits { IfOk result (λ s. Fits (shape_size shape.now) (traced_of s).stores) }
{
    let stores = assign(alloc, shape, slot, dist, memo, from.stores.as_slice())?;
    Ok(State {
        trace: from.trace,
        stores,
    })
}

/// One state for each value that is leaked, in ascending order. The variable at `into`, if there is one, takes the value.
/// `memo` keeps what the distribution chooses.
fn leak(
    alloc: Global,
    shape: &Shape,
    into: Option<usize>,
    dist: &Dx,
    memo: &mut Memo,
    from: State,
) -> Result<Vec<State>, Mem>
    requires variable { IfSome into (λ slot. slot < length (shape_types shape.now)) }
    requires kinded { (k : KindTree) × DistKinded (shape_kinds shape.now) (dx_tree dist.now) k }
    requires memo { IsMemoOf shape.now (dx_tree dist.now) memo.old }
    requires fits { Fits (shape_size shape.now) (traced_of from).stores }
    ensures memo { OnOk result (IsMemoOf shape.now (dx_tree dist.now) memo.new) }
    ensures leaked { IfOk result (λ ss. map traced_of ss.items ≡ leaked (lead_of (shape_types shape.now) into) (tried (shape_types shape.now) (dx_tree dist.now)) (traced_of from)) }
    ensures fits { IfOk result (λ ss. AllFit (shape_size shape.now) (map traced_of ss.items)) }
{
    let parts = split(alloc, shape, into, dist, memo, from.stores.as_slice())?;
    let states = all_behind(alloc, from.trace, parts)?;
    Ok(states)
}

/// How many stores stand behind all states, or the greatest number where these are more.
fn count_stores(states: &[State]) -> usize {
    let mut count: usize = 0;
    for state in states {
        count = count.saturating_add(state.stores.len());
    }
    count
}

/// What becomes of states, in their order, where each leaks a value.
///
/// What the distribution chooses is kept for all of them: there may be few stores behind each, and many behind all.
fn leak_each(
    alloc: Global,
    shape: &Shape,
    into: Option<usize>,
    dist: &Dx,
    states: Vec<State>,
) -> Result<Vec<State>, Mem>
    requires variable { IfSome into (λ slot. slot < length (shape_types shape.now)) }
    requires kinded { (k : KindTree) × DistKinded (shape_kinds shape.now) (dx_tree dist.now) k }
    requires fits { AllFit (shape_size shape.now) (map traced_of states.items) }
    ensures leaked { IfOk result (λ ss. map traced_of ss.items ≡ flat_map (leaked (lead_of (shape_types shape.now) into) (tried (shape_types shape.now) (dx_tree dist.now))) (map traced_of states.items)) }
    ensures fits { IfOk result (λ ss. AllFit (shape_size shape.now) (map traced_of ss.items)) }
{
    let mut memo = Memo::new(alloc, shape, dist, count_stores(&states))?;
    let mut next = Vec::new(alloc);
    for state in states {
        let mut leaks = leak(alloc, shape, into, dist, &mut memo, state)?;
        next.append(&mut leaks)?;
    }
    Ok(next)
}

/// The states, in their order, each with its stores assigned. What the distribution chooses is kept for all of them.
fn assigned_each(
    alloc: Global,
    shape: &Shape,
    slot: usize,
    dist: &Dx,
    states: Vec<State>,
) -> Result<Vec<State>, Mem>
    requires variable { slot < length (shape_types shape.now) }
    requires kinded { (k : KindTree) × DistKinded (shape_kinds shape.now) (dx_tree dist.now) k }
    requires fits { AllFit (shape_size shape.now) (map traced_of states.items) }
    ensures assigned { IfOk result (λ ss. map traced_of ss.items ≡ flat_map (assign_traced (shape_types shape.now) slot (dx_tree dist.now)) (map traced_of states.items)) }
    ensures fits { IfOk result (λ ss. AllFit (shape_size shape.now) (map traced_of ss.items)) }
{
    let mut memo = Memo::new(alloc, shape, dist, count_stores(&states))?;
    let mut next = Vec::new(alloc);
    for state in states {
        let reached = assigned(alloc, shape, slot, dist, &mut memo, state)?;
        next.push(reached)?;
    }
    Ok(next)
}

/// What becomes of states in an assignment. Where it is shown, the value is leaked.
fn assigned_all(
    alloc: Global,
    shape: &Shape,
    slot: usize,
    dist: &Dx,
    shown: bool,
    states: Vec<State>,
) -> Result<Vec<State>, Mem>
    requires variable { slot < length (shape_types shape.now) }
    requires kinded { (k : KindTree) × DistKinded (shape_kinds shape.now) (dx_tree dist.now) k }
    requires fits { AllFit (shape_size shape.now) (map traced_of states.items) }
    ensures walked { IfOk result (λ ss. map traced_of ss.items ≡ flat_map (assignment_traced shown (shape_types shape.now) slot (dx_tree dist.now)) (map traced_of states.items)) }
    ensures fits { IfOk result (λ ss. AllFit (shape_size shape.now) (map traced_of ss.items)) }
{
    if shown {
        leak_each(alloc, shape, Some(slot), dist, states)
    } else {
        assigned_each(alloc, shape, slot, dist, states)
    }
}

/// What becomes of states in a statement, in their order.
#[cycle(walk)]
fn walk_each(
    alloc: Global,
    shape: &Shape,
    turns: u32,
    statement: &St,
    states: Vec<State>,
) -> Result<Vec<State>, Mem>
    requires sound { IsSound (shape_kinds shape.now) (st_tree statement.now) }
    requires fits { AllFit (shape_size shape.now) (map traced_of states.items) }
    ensures walked { IfOk result (λ ss. map traced_of ss.items ≡ flat_map (traced (shape_types shape.now) turns (st_tree statement.now)) (map traced_of states.items)) }
    ensures fits { IfOk result (λ ss. AllFit (shape_size shape.now) (map traced_of ss.items)) }
{
    match statement {
        St::Skip => Ok(states),
        St::Assign { slot, dist, shown } => {
            assigned_all(alloc, shape, usize::from(*slot), dist, *shown, states)
        }
        St::Observe(dist) => leak_each(alloc, shape, None, dist, states),
        St::If {
            guard: test,
            yes,
            no,
        } => {
            let leaks = leak_each(alloc, shape, None, test, states)?;
            let mut next = Vec::new(alloc);
            for state in leaks {
                let block = if ends_true(&state) {
                    yes.as_slice()
                } else {
                    no.as_slice()
                };
                let mut walked = walk_all(alloc, shape, turns, block, state)?;
                next.append(&mut walked)?;
            }
            Ok(next)
        }
        St::While { guard: test, body } => {
            walk_loops(alloc, shape, turns, test, body.as_slice(), states)
        }
    }
}

/// What becomes of states in a loop, in their order. What its guard chooses is kept for all of them, and for all turns.
#[cycle(walk)]
fn walk_loops(
    alloc: Global,
    shape: &Shape,
    turns: u32,
    test: &Dx,
    body: &[St],
    states: Vec<State>,
) -> Result<Vec<State>, Mem>
    requires kinded { DistKinded (shape_kinds shape.now) (dx_tree test.now) TruthKind }
    requires sound { AreSound (shape_kinds shape.now) (map st_tree body.now) }
    requires fits { AllFit (shape_size shape.now) (map traced_of states.items) }
    ensures walked { IfOk result (λ ss. map traced_of ss.items ≡ flat_map (loop_traced turns (tried (shape_types shape.now) (dx_tree test.now)) (all_traced (shape_types shape.now) turns (sts (map st_tree body.now)))) (map traced_of states.items)) }
    ensures fits { IfOk result (λ ss. AllFit (shape_size shape.now) (map traced_of ss.items)) }
{
    let mut memo = Memo::new(alloc, shape, test, count_stores(&states))?;
    let mut next = Vec::new(alloc);
    for state in states {
        let mut walked = walk_while(alloc, shape, turns, test, body, &mut memo, state)?;
        next.append(&mut walked)?;
    }
    Ok(next)
}

/// What becomes of a state in a loop with at most so many turns.
///
/// The visits to the guard are a stack, since there may be more turns than calls can be nested. `memo` keeps what the
/// guard chooses.
#[cycle(walk)]
fn walk_while(
    alloc: Global,
    shape: &Shape,
    turns: u32,
    test: &Dx,
    body: &[St],
    memo: &mut Memo,
    from: State,
) -> Result<Vec<State>, Mem>
    requires kinded { DistKinded (shape_kinds shape.now) (dx_tree test.now) TruthKind }
    requires sound { AreSound (shape_kinds shape.now) (map st_tree body.now) }
    requires memo { IsMemoOf shape.now (dx_tree test.now) memo.old }
    requires fits { Fits (shape_size shape.now) (traced_of from).stores }
    ensures memo { OnOk result (IsMemoOf shape.now (dx_tree test.now) memo.new) }
    ensures walked { IfOk result (λ ss. map traced_of ss.items ≡ loop_traced turns (tried (shape_types shape.now) (dx_tree test.now)) (all_traced (shape_types shape.now) turns (sts (map st_tree body.now))) (traced_of from)) }
    ensures fits { IfOk result (λ ss. AllFit (shape_size shape.now) (map traced_of ss.items)) }
{
    let mut ended = Vec::new(alloc);
    let mut visits = Vec::new(alloc);
    visits.push(Visit::Asks(from, turns))?;
    while let Some(visit) = visits.pop() {
        match visit {
            Visit::Left(state) => {
                ended.push(state)?;
            }
            Visit::Asks(state, rest) => {
                let states = leak(alloc, shape, None, test, memo, state)?;
                let mut next = turn(alloc, shape, turns, rest, body, states)?;
                next.reverse();
                visits.append(&mut next)?;
            }
        }
    }
    Ok(ended)
}

/// The next visits of states that have leaked the guard's value, with so many turns to come.
#[cycle(walk)]
fn turn(
    alloc: Global,
    shape: &Shape,
    turns: u32,
    rest: u32,
    body: &[St],
    states: Vec<State>,
) -> Result<Vec<Visit>, Mem>
    requires sound { AreSound (shape_kinds shape.now) (map st_tree body.now) }
    requires fits { AllFit (shape_size shape.now) (map traced_of states.items) }
    ensures visits { IfOk result (λ vs. map visit_of vs.items ≡ flat_map (visits_next (all_traced (shape_types shape.now) turns (sts (map st_tree body.now))) rest) (map traced_of states.items)) }
    ensures fits { IfOk result (λ vs. All (λ v. Fits (shape_size shape.now) (visitor v).stores) (map visit_of vs.items)) }
{
    let mut visits = Vec::new(alloc);
    for state in states {
        if ends_true(&state) {
            let mut asking = ask_again(alloc, shape, turns, rest, body, state)?;
            visits.append(&mut asking)?;
        } else {
            visits.push(Visit::Left(state))?;
        }
    }
    Ok(visits)
}

/// The visits of a state that goes through the body again; none where no turn is to come.
#[cycle(walk)]
fn ask_again(
    alloc: Global,
    shape: &Shape,
    turns: u32,
    rest: u32,
    body: &[St],
    state: State,
) -> Result<Vec<Visit>, Mem>
    requires sound { AreSound (shape_kinds shape.now) (map st_tree body.now) }
    requires fits { Fits (shape_size shape.now) (traced_of state).stores }
    ensures visits { IfOk result (λ vs. map visit_of vs.items ≡ asks_again (all_traced (shape_types shape.now) turns (sts (map st_tree body.now))) rest (traced_of state)) }
    ensures fits { IfOk result (λ vs. All (λ v. Fits (shape_size shape.now) (visitor v).stores) (map visit_of vs.items)) }
{
    if rest == 0 {
        return Ok(Vec::new(alloc));
    }
    let walked = walk_all(alloc, shape, turns, body, state)?;
    let asking = all_ask(alloc, walked, rest - 1)?;
    Ok(asking)
}

/// The states as visits that ask the guard, with so many turns to come.
fn all_ask(alloc: Global, states: Vec<State>, rest: u32) -> Result<Vec<Visit>, Mem>
    ensures { IfOk result (λ vs. map visit_of vs.items ≡ map (λ s. Asks s rest) (map traced_of states.items)) }
{
    let mut visits = Vec::new(alloc);
    for state in states {
        visits.push(Visit::Asks(state, rest))?;
    }
    Ok(visits)
}

/// What becomes of a state in statements, one after the other.
#[cycle(walk)]
fn walk_all(
    alloc: Global,
    shape: &Shape,
    turns: u32,
    statements: &[St],
    from: State,
) -> Result<Vec<State>, Mem>
    requires sound { AreSound (shape_kinds shape.now) (map st_tree statements.now) }
    requires fits { Fits (shape_size shape.now) (traced_of from).stores }
    ensures walked { IfOk result (λ ss. map traced_of ss.items ≡ all_traced (shape_types shape.now) turns (sts (map st_tree statements.now)) (traced_of from)) }
    ensures fits { IfOk result (λ ss. AllFit (shape_size shape.now) (map traced_of ss.items)) }
{
    let mut states = only(alloc, from)?;
    for statement in statements {
        states = walk_each(alloc, shape, turns, statement, states)?;
    }
    Ok(states)
}

/// The first store of a program, with all weight, and nothing leaked.
fn first(alloc: Global, scale: u128) -> Result<State, Mem>
    ensures { IfOk result (λ s. traced_of s ≡ first_of scale) }
{
    let mut stores = Vec::new(alloc);
    stores.push((0, scale))?;
    Ok(State {
        trace: Vec::new(alloc),
        stores,
    })
}

/// All ends of a checked program: its declarations from the first store, its carried copies, its statements.
fn walk_checked(
    alloc: Global,
    program: &Program,
    turns: u32,
    scale: u128,
) -> Result<Vec<State>, Mem>
    requires checked { IsChecked (program_tree program.now) }
    requires narrow { scale < 2 ^ 127 }
    ensures states { IfOk result (λ ss. map traced_of ss.items ≡ program_traced turns scale (program_tree program.now)) }
    ensures fits { IfOk result (λ ss. AllFit (shape_size program.now.shape) (map traced_of ss.items)) }
{
    let decls = program.decls.as_slice();
    let mut state = first(alloc, scale)?;
    for (i, dist) in decls.iter().enumerate() {
        let mut memo = Memo::new(alloc, &program.shape, dist, state.stores.len())?;
        state = assigned(alloc, &program.shape, i, dist, &mut memo, state)?;
    }
    let stores = copy(alloc, program, state.stores.as_slice())?;
    let start = State {
        trace: state.trace,
        stores,
    };
    walk_all(alloc, &program.shape, turns, program.body.as_slice(), start)
}

/// All ends of a cleared program: its traces in ascending order, each with the stores behind it.
pub fn walk_program(alloc: Global, c: &Cleared) -> Result<Vec<State>, Mem>
    ensures states { IfOk result (λ ss. map traced_of ss.items ≡ program_traced (turns_of c.now) (whole_scale c.now) (program_tree (program_of c.now))) }
    ensures fits { IfOk result (λ ss. AllFit (product (shape_sizes (program_of c.now).shape)) (map traced_of ss.items)) }
{
    walk_checked(alloc, c.program(), c.turns(), c.scale())
}

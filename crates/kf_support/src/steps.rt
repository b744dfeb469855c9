//! One step from all stores that are reached.

ghost use Rattle.std.specs.Prelude.{◌≡◌, ℕ, ◌<◌, ◌≤◌, ◌^◌, [], ◌∷◌, ◌++◌, if◌then◌else◌, true, false, Ok, Err, length, map, Some, None, IfOk, IfErr, IfSome, OnOk};
ghost use Rattle.std.specs.List.{All};
ghost use Rattle.kf_value.specs.Forms.{IsWellFormed};
ghost use Rattle.kf_value.specs.Kinds.{KindTree, TruthKind};
ghost use Rattle.kf_value.specs.Shapes.{shape_types, shape_size};
ghost use Rattle.kf_core.specs.Checked.{DistKinded, IsChecked};
ghost use Rattle.kf_core.specs.Views.{dx_tree, program_tree};
ghost use Rattle.kf_core.specs.Choices.{total};
ghost use Rattle.kf_core.specs.Runs.{Halted, replaced, tried};
ghost use Rattle.kf_core.specs.Results.{then_ok};
ghost use Rattle.kf_core.specs.Support.{can_be as can_be_of};
ghost use Rattle.kf_core.specs.Each.{each_moved};
ghost use Rattle.kf_eval.specs.Choices.{weighted_tree, weighted_trees};
ghost use Rattle.kf_eval.specs.Kinds.{shape_kinds};
ghost use Rattle.kf_eval.specs.Memos.{IsKeptAt, IsMemoOf, kept};
ghost use Rattle.kf_support.specs.Answers.{AnswersPass, AreReached, AreWays, IsHaltOf, ways_to};
ghost use Rattle.kf_support.specs.Carried.{carry_step, with_all, assign_lead, observe_lead, guard_lead, last_lead, copy_lead};

use crate::faults::{Halt, RunFault, fault_of};
use crate::moves::{copied_store, moved};
use crate::ways::{FEW, scaled, settled, shortened};
use kf_core::{Dx, Program};
use kf_eval::{Memo, Weighted, is_always_sure};
use kf_value::{Mem, Shape, is_true};
use std::alloc::Global;

/// The stores in which a guard can be true, and ways to those in which it can be false.
#[derive(Drop)]
pub struct Branches {
    pub taken: Vec<(u64, u128)>,
    pub left: Vec<(u64, u128)>,
}

/// Where the memo keeps what the distribution chooses in a store, or its fault as one of the pass.
fn find_in(
    alloc: Global,
    shape: &Shape,
    dist: &Dx,
    store: u64,
    memo: &mut Memo,
) -> Result<usize, Halt>
    requires store { store < shape_size shape.now }
    requires kinded { (k : KindTree) × DistKinded (shape_kinds shape.now) (dx_tree dist.now) k }
    requires memo { IsMemoOf shape.now (dx_tree dist.now) memo.old }
    ensures memo { OnOk result (IsMemoOf shape.now (dx_tree dist.now) memo.new) }
    ensures found { IfOk result (λ place. IsKeptAt shape.now (dx_tree dist.now) store memo.new place) }
    ensures within { IfOk result (λ place. place < length (kept memo.new)) }
    ensures fault { IfErr result (λ e. IsHaltOf (tried (shape_types shape.now) (dx_tree dist.now) store) e) }
{
    match memo.find(alloc, shape, dist, store) {
        Ok(place) => Ok(place),
        Err(error) => Err(fault_of(error, dist.at)),
    }
}

/// Adds a way to the store behind each choice.
fn add_moved(
    shape: &Shape,
    slot: usize,
    at: u32,
    store: u64,
    choices: &[Weighted],
    scale: u128,
    next: &mut Vec<(u64, u128)>,
) -> Result<(), Halt>
    requires variable { slot < length (shape_types shape.now) }
    requires store { store < shape_size shape.now }
    requires formed { All (λ w. IsWellFormed w.value) (map weighted_tree choices.now) }
    requires some { 1 ≤ scale }
    requires told { scale ≤ 2 ^ 127 }
    requires ways { AreWays (shape_size shape.now) next.old.items }
    ensures moved { OnOk result (then_ok (each_moved at (map (λ w. replaced (shape_types shape.now) slot w.value store) (map weighted_tree choices.now)))
        (λ ms. Ok (next.old.items ++ ways_to ms scale)) ≡ Ok next.new.items) }
    ensures ways { OnOk result (AreWays (shape_size shape.now) next.new.items) }
    ensures fault { IfErr result (λ e. IsHaltOf (each_moved at (map (λ w. replaced (shape_types shape.now) slot w.value store) (map weighted_tree choices.now))) e) }
{
    for choice in choices {
        let Some(after) = moved(shape, slot, store, &choice.value) else {
            return Err(Halt::Fault {
                kind: RunFault::OutOfRange,
                at,
            });
        };
        next.push((after, scale))?;
    }
    Ok(())
}

/// Where an assignment to the variable at `slot` leads.
pub fn assign(
    alloc: Global,
    shape: &Shape,
    slot: usize,
    dist: &Dx,
    from: &[(u64, u128)],
) -> Result<Vec<(u64, u128)>, Halt>
    requires variable { slot < length (shape_types shape.now) }
    requires kinded { (k : KindTree) × DistKinded (shape_kinds shape.now) (dx_tree dist.now) k }
    requires ways { AreWays (shape_size shape.now) from.now }
    ensures answer { AnswersPass result (carry_step (assign_lead (shape_types shape.now) slot (dx_tree dist.now)) [] from.now) }
    ensures ways { IfOk result (λ m. AreReached (shape_size shape.now) m.items) }
{
    let mut next = Vec::with_capacity(alloc, from.len())?;
    let mut room = FEW;
    let mut memo = Memo::new(alloc, shape, dist, from.len())?;
    for way in from {
        let place = find_in(alloc, shape, dist, way.0, &mut memo)?;
        let choice = memo.at(place);
        let grown = scaled(way.1, choice.total);
        add_moved(
            shape,
            slot,
            dist.at,
            way.0,
            choice.items.as_slice(),
            grown,
            &mut next,
        )?;
        next = shortened(alloc, next, &mut room)?;
    }
    let reached = settled(alloc, next)?;
    Ok(reached)
}

/// The same stores behind an observation, each with its scale times the total of its choices. Where the distribution is known to
/// choose one value, nothing is evaluated, and the stores are handed back as they are.
pub fn observe(
    alloc: Global,
    shape: &Shape,
    dist: &Dx,
    from: Vec<(u64, u128)>,
) -> Result<Vec<(u64, u128)>, Halt>
    requires kinded { (k : KindTree) × DistKinded (shape_kinds shape.now) (dx_tree dist.now) k }
    requires ways { AreReached (shape_size shape.now) from.items }
    ensures answer { AnswersPass result (carry_step (observe_lead (shape_types shape.now) (dx_tree dist.now)) [] from.items) }
    ensures ways { IfOk result (λ m. AreReached (shape_size shape.now) m.items) }
{
    if is_always_sure(dist) {
        return Ok(from);
    }
    let mut next = from;
    let mut memo = Memo::new(alloc, shape, dist, next.len())?;
    for i in 0..next.len() {
        let (store, scale) = next[i];
        let place = find_in(alloc, shape, dist, store, &mut memo)?;
        let choice = memo.at(place);
        next[i] = (store, scaled(scale, choice.total));
    }
    let reached = settled(alloc, next)?;
    Ok(reached)
}

/// Whether some choice is true, or false.
fn can_be(choices: &[Weighted], truth: bool) -> bool
    ensures { result ≡ can_be_of truth (Ok (map weighted_tree choices.now)) }
{
    choices.iter().any(|choice| is_true(&choice.value) == truth)
}

/// Adds a way to a store where `there` says so.
fn add_if(ways: &mut Vec<(u64, u128)>, there: bool, store: u64, scale: u128) -> Result<(), Mem>
    ensures { OnOk result (ways.new.items ≡ ways.old.items ++ ways_to (if there then store ∷ [] else []) scale) }
{
    if there {
        ways.push((store, scale))?;
    }
    Ok(())
}

/// The stores in which a guard can be true, and behind `left` ways to those in which it can be false.
pub fn guard(
    alloc: Global,
    shape: &Shape,
    dist: &Dx,
    from: &[(u64, u128)],
    left: Vec<(u64, u128)>,
) -> Result<Branches, Halt>
    requires kinded { DistKinded (shape_kinds shape.now) (dx_tree dist.now) TruthKind }
    requires ways { AreWays (shape_size shape.now) from.now }
    requires left_ways { AreWays (shape_size shape.now) left.items }
    ensures taken { IfOk result (λ b. carry_step (guard_lead true (tried (shape_types shape.now) (dx_tree dist.now))) [] from.now ≡ Ok b.taken.items) }
    ensures left { IfOk result (λ b. carry_step (guard_lead false (tried (shape_types shape.now) (dx_tree dist.now))) (with_all [] left.items) from.now ≡ Ok (with_all [] b.left.items)) }
    ensures fault { IfErr result (λ e. IsHaltOf (carry_step (guard_lead true (tried (shape_types shape.now) (dx_tree dist.now))) [] from.now) e) }
    ensures ways { IfOk result (λ b. AreReached (shape_size shape.now) b.taken.items × AreWays (shape_size shape.now) b.left.items) }
{
    let mut taken = Vec::with_capacity(alloc, from.len())?;
    let mut left = left;
    let mut memo = Memo::new(alloc, shape, dist, from.len())?;
    for way in from {
        let place = find_in(alloc, shape, dist, way.0, &mut memo)?;
        let choice = memo.at(place);
        let grown = scaled(way.1, choice.total);
        let choices = choice.items.as_slice();
        add_if(&mut taken, can_be(choices, true), way.0, grown)?;
        add_if(&mut left, can_be(choices, false), way.0, grown)?;
    }
    let taken = settled(alloc, taken)?;
    Ok(Branches { taken, left })
}

/// Beside `left` the stores in which a guard is false, which it must be in all of them.
pub fn last_guard(
    alloc: Global,
    shape: &Shape,
    dist: &Dx,
    from: &[(u64, u128)],
    left: Vec<(u64, u128)>,
) -> Result<Vec<(u64, u128)>, Halt>
    requires kinded { DistKinded (shape_kinds shape.now) (dx_tree dist.now) TruthKind }
    requires ways { AreWays (shape_size shape.now) from.now }
    requires left_ways { AreWays (shape_size shape.now) left.items }
    ensures answer { AnswersPass result (carry_step (last_lead dist.now.at (tried (shape_types shape.now) (dx_tree dist.now))) (with_all [] left.items) from.now) }
    ensures ways { IfOk result (λ m. AreReached (shape_size shape.now) m.items) }
{
    let mut left = left;
    let mut memo = Memo::new(alloc, shape, dist, from.len())?;
    for way in from {
        let place = find_in(alloc, shape, dist, way.0, &mut memo)?;
        let choice = memo.at(place);
        let choices = choice.items.as_slice();
        if can_be(choices, true) {
            return Err(Halt::Fault {
                kind: RunFault::LoopBound,
                at: dist.at,
            });
        }
        add_if(
            &mut left,
            can_be(choices, false),
            way.0,
            scaled(way.1, choice.total),
        )?;
    }
    let reached = settled(alloc, left)?;
    Ok(reached)
}

/// The stores with the carried copies set. Where there are none, the stores are handed back as they are.
pub fn copy(
    alloc: Global,
    program: &Program,
    from: Vec<(u64, u128)>,
) -> Result<Vec<(u64, u128)>, Halt>
    requires checked { IsChecked (program_tree program.now) }
    requires ways { AreReached (shape_size program.now.shape) from.items }
    ensures answer { AnswersPass result (carry_step (copy_lead (program_tree program.now)) [] from.items) }
    ensures ways { IfOk result (λ m. AreReached (shape_size program.now.shape) m.items) }
{
    if program.copies.as_slice().is_empty() {
        return Ok(from);
    }
    let mut next = from;
    for i in 0..next.len() {
        let (store, scale) = next[i];
        next[i] = (copied_store(program, store), scale);
    }
    let reached = settled(alloc, next)?;
    Ok(reached)
}

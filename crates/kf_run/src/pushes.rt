//! Columns of stores pushed through statements of which one may be silent: what is leaked within it is left out, and all else is as ever.

ghost use Rattle.std.specs.Prelude.{◌≡◌, ◌≤◌, ◌<◌, ◌+◌, ◌-◌, ◌++◌, false, [], ◌∷◌, List, All, length, map, take, drop, IfOk};
ghost use Rattle.kf_value.specs.Kinds.{TruthKind};
ghost use Rattle.kf_value.specs.Shapes.{shape_size, shape_types};
ghost use Rattle.kf_column.specs.Columns.{total};
ghost use Rattle.kf_column.specs.Joint.{Joint, IsJoint, mass};
ghost use Rattle.kf_column.specs.Merged.{AreMerged};
ghost use Rattle.kf_column.specs.Shapes.{IsBelow};
ghost use Rattle.kf_core.specs.Checked.{AreSound, DistKinded, IsSound};
ghost use Rattle.kf_core.specs.Pushing.{AreBehind};
ghost use Rattle.kf_core.specs.Ready.{IsPushed, IsReady};
ghost use Rattle.kf_core.specs.Runs.{all_runs, looped, place, runs, tried};
ghost use Rattle.kf_core.specs.Sts.{sts};
ghost use Rattle.kf_core.specs.Views.{dx_tree, program_tree, st_tree};
ghost use Rattle.kf_eval.specs.Kinds.{shape_kinds};
ghost use Rattle.kf_support.specs.Cleared.{program_of, turns_of, whole_scale};
ghost use Rattle.kf_silent.specs.Quiet.{hushed};
ghost use Rattle.kf_silent.specs.Silent.{all_silent_runs, silent_runs};
ghost use Rattle.kf_push.specs.Following.{Goes, observed};
ghost use Rattle.kf_run.specs.Going.{AreSides, CanGo, HasGone};
ghost use Rattle.kf_run.specs.Silence.{silent_at};

use crate::silence::{is_itself, within};
use crate::steps::{Sides, assignment, guard, show};
use kf_core::{Dx, St, run_laws};
use kf_hyper::{Column, ColumnList, Columns, join, merge, merge_owned};
use kf_push::{alone, are_columns, sum_of};
use kf_support::Cleared;
use kf_value::{Mem, Shape};
use std::alloc::Global;

/// No columns, over the scale of these.
fn none_of(alloc: Global, columns: &Columns) -> Columns
    ensures { result ≡ record { scale = columns.now.scale; columns = [] } }
{
    Columns::new(columns.scale(), ColumnList::new(Vec::new(alloc)))
}

/// Both lists as one, with those of one posterior added up.
fn merge_both(alloc: Global, one: Columns, other: Columns) -> Result<Columns, Mem>
    requires one_scale { one.scale ≡ other.scale }
    requires fits { mass one.columns + mass other.columns ≤ one.scale }
    ensures merged { IfOk result (λ after. AreMerged (one.columns ++ other.columns) after.columns) }
    ensures scale { IfOk result (λ after. after.scale ≡ one.scale) }
{
    let joined = join(alloc, one, other)?;
    let merged = merge_owned(alloc, joined)?;
    Ok(merged)
}

/// What columns become in a statement where the one at this path within it is silent, if there is a path, with those of one posterior added
/// up. They needn't be merged before.
#[cycle(push)]
pub(crate) fn push_one(
    alloc: Global,
    shape: &Shape,
    turns: u32,
    statement: &St,
    silent: Option<&[usize]>,
    columns: &Columns,
) -> Result<Columns, Mem>
    requires sound { IsSound (shape_kinds shape.now) (st_tree statement.now) }
    requires can { CanGo (silent_runs (silent_at silent) (shape_types shape.now) turns (st_tree statement.now)) (shape_size shape.now) columns.now }
    ensures { IfOk result (λ after. HasGone (silent_runs (silent_at silent.entry) (shape_types shape.now) turns (st_tree statement.now)) (shape_size shape.now) columns.now after) }
{
    if is_itself(silent) {
        hush(alloc, shape, turns, statement, columns)
    } else {
        push_seen(alloc, shape, turns, statement, silent, columns)
    }
}

/// What one column becomes in a silent statement: the sum of all that comes of it.
#[cycle(push)]
fn hush_one(
    alloc: Global,
    shape: &Shape,
    turns: u32,
    statement: &St,
    scale: u128,
    column: &Column,
) -> Result<Column, Mem>
    requires sound { IsSound (shape_kinds shape.now) (st_tree statement.now) }
    requires can { CanGo (runs (shape_types shape.now) turns (st_tree statement.now)) (shape_size shape.now) (record { scale = scale; columns = column.now ∷ [] }) }
    requires joint { IsJoint (record { scale = scale; columns = column.now ∷ [] }) }
    ensures behind { IfOk result (λ after. AreBehind (λ n. hushed (runs (shape_types shape.now) turns (st_tree statement.now) n)) (column.now ∷ []) (after ∷ [])) }
    ensures below { IfOk result (λ after. IsBelow (shape_size shape.now) after) }
    ensures total { IfOk result (λ after. total after ≡ total column.now) }
{
    let one = alone(alloc, scale, column.copy(alloc)?)?;
    let after = push_seen(alloc, shape, turns, statement, None, &one)?;
    let sum = sum_of(alloc, &after)?;
    sum.is_column();
    Ok(sum)
}

/// What columns become in a silent statement: each goes through it alone, and what comes of it is added up.
#[cycle(push)]
fn hush(
    alloc: Global,
    shape: &Shape,
    turns: u32,
    statement: &St,
    columns: &Columns,
) -> Result<Columns, Mem>
    requires sound { IsSound (shape_kinds shape.now) (st_tree statement.now) }
    requires can { CanGo (runs (shape_types shape.now) turns (st_tree statement.now)) (shape_size shape.now) columns.now }
    ensures { IfOk result (λ after. HasGone (λ n. hushed (runs (shape_types shape.now) turns (st_tree statement.now) n)) (shape_size shape.now) columns.now after) }
{
    are_columns(columns);
    let mut list = Vec::new(alloc);
    for column in columns.columns().as_slice() {
        let sum = hush_one(alloc, shape, turns, statement, columns.scale(), column)?;
        list.push(sum)?;
    }
    let hushed = Columns::new(columns.scale(), ColumnList::new(list));
    let after = merge_owned(alloc, hushed)?;
    Ok(after)
}

/// What columns become in a statement that isn't silent itself, where this one within it may be.
#[cycle(push)]
fn push_seen(
    alloc: Global,
    shape: &Shape,
    turns: u32,
    statement: &St,
    silent: Option<&[usize]>,
    columns: &Columns,
) -> Result<Columns, Mem>
    requires seen { silent_at silent [] ≡ false }
    requires sound { IsSound (shape_kinds shape.now) (st_tree statement.now) }
    requires can { CanGo (silent_runs (silent_at silent) (shape_types shape.now) turns (st_tree statement.now)) (shape_size shape.now) columns.now }
    ensures { IfOk result (λ after. HasGone (silent_runs (silent_at silent.entry) (shape_types shape.now) turns (st_tree statement.now)) (shape_size shape.now) columns.now after) }
{
    match statement {
        St::Skip => {
            let after = merge(alloc, columns)?;
            Ok(after)
        }
        St::Assign { slot, dist, shown } => {
            let after = assignment(alloc, shape, usize::from(*slot), dist, *shown, columns)?;
            Ok(after)
        }
        St::Observe(dist) => {
            let after = show(alloc, shape, None, dist, columns)?;
            Ok(after)
        }
        St::If {
            guard: test,
            yes,
            no,
        } => {
            let sides = guard(alloc, shape, test, columns)?;
            let in_yes = within(silent, 0);
            let one = push_all(alloc, shape, turns, yes.as_slice(), in_yes, sides.taken)?;
            let in_no = within(silent, 1);
            let other = push_all(alloc, shape, turns, no.as_slice(), in_no, sides.left)?;
            let after = merge_both(alloc, one, other)?;
            Ok(after)
        }
        St::While { guard: test, body } => {
            let in_body = within(silent, 0);
            push_loop(alloc, shape, turns, test, body.as_slice(), in_body, columns)
        }
    }
}

/// The columns that ask a loop's guard parted by its value, with those that leave added to those that left before.
fn asked(alloc: Global, shape: &Shape, test: &Dx, sides: Sides) -> Result<Sides, Mem>
    requires kinded { DistKinded (shape_kinds shape.now) (dx_tree test.now) TruthKind }
    requires below { All (IsBelow (shape_size shape.now)) sides.taken.columns }
    requires goes { Goes (observed (tried (shape_types shape.now) (dx_tree test.now))) sides.taken.columns }
    requires scale { sides.taken.scale ≡ sides.left.scale }
    requires fits { mass sides.taken.columns + mass sides.left.columns ≤ sides.taken.scale }
    ensures { IfOk result (λ after. (gone : Joint) × AreSides (shape_size shape.now) (tried (shape_types shape.now) (dx_tree test.now)) sides.taken after.taken gone
        × AreMerged (sides.left.columns ++ gone.columns) after.left.columns × (after.left.scale ≡ sides.left.scale)) }
{
    let parted = guard(alloc, shape, test, &sides.taken)?;
    let left = merge_both(alloc, sides.left, parted.left)?;
    Ok(Sides {
        taken: parted.taken,
        left,
    })
}

/// What columns become in a loop with at most so many turns, where this statement of its body is silent in each turn.
///
/// Behind each turn those that leave join those that left before, and the others ask the guard again.
#[cycle(push)]
fn push_loop(
    alloc: Global,
    shape: &Shape,
    turns: u32,
    test: &Dx,
    body: &[St],
    silent: Option<&[usize]>,
    columns: &Columns,
) -> Result<Columns, Mem>
    requires kinded { DistKinded (shape_kinds shape.now) (dx_tree test.now) TruthKind }
    requires sound { AreSound (shape_kinds shape.now) (map st_tree body.now) }
    requires can { CanGo (looped turns (tried (shape_types shape.now) (dx_tree test.now)) (place (dx_tree test.now)) (all_silent_runs (silent_at silent) (shape_types shape.now) turns 0 (sts (map st_tree body.now)))) (shape_size shape.now) columns.now }
    ensures { IfOk result (λ after. HasGone (looped turns (tried (shape_types shape.now) (dx_tree test.now)) (place (dx_tree test.now)) (all_silent_runs (silent_at silent.entry) (shape_types shape.now) turns 0 (sts (map st_tree body.now)))) (shape_size shape.now) columns.now after) }
{
    let asking = columns.copy(alloc)?;
    let none = none_of(alloc, columns);
    let mut now = Sides {
        taken: asking,
        left: none,
    };
    for _turn in 0..turns {
        if now.taken.columns().as_slice().is_empty() {
            return Ok(now.left);
        }
        let sides = asked(alloc, shape, test, now)?;
        let taken = push_all(alloc, shape, turns, body, silent, sides.taken)?;
        now = Sides {
            taken,
            left: sides.left,
        };
    }
    let last = asked(alloc, shape, test, now)?;
    Ok(last.left)
}

/// What merged columns become in statements, one after the other, where this one of them is silent. A `skip` leaves them as they are.
#[cycle(push)]
pub(crate) fn push_all(
    alloc: Global,
    shape: &Shape,
    turns: u32,
    statements: &[St],
    silent: Option<&[usize]>,
    columns: Columns,
) -> Result<Columns, Mem>
    requires sound { AreSound (shape_kinds shape.now) (map st_tree statements.now) }
    requires merged { AreMerged columns.columns columns.columns }
    requires can { CanGo (all_silent_runs (silent_at silent) (shape_types shape.now) turns 0 (sts (map st_tree statements.now))) (shape_size shape.now) columns }
    ensures { IfOk result (λ after. HasGone (all_silent_runs (silent_at silent.entry) (shape_types shape.now) turns 0 (sts (map st_tree statements.now))) (shape_size shape.now) columns after) }
{
    let mut now = columns;
    for (at, statement) in statements.iter().enumerate() {
        match statement {
            St::Skip => {}
            _ => {
                let here = within(silent, at);
                now = push_one(alloc, shape, turns, statement, here, &now)?;
            }
        }
    }
    Ok(now)
}

/// What columns of stores become in the outermost statement `at`, from 0, with those of one posterior added up.
///
/// They needn't be merged before, and nothing is merged that is merged already.
pub fn push_at(alloc: Global, c: &Cleared, at: usize, columns: &Columns) -> Result<Columns, Mem>
    requires within { at < length (program_tree (program_of c.now)).body }
    requires scale { columns.now.scale ≡ whole_scale c.now }
    requires below { All (IsBelow (shape_size (program_of c.now).shape)) columns.now.columns }
    requires ready { IsReady (program_tree (program_of c.now)).types (turns_of c.now) (drop at (program_tree (program_of c.now)).body) columns.now.columns }
    ensures pushed { IfOk result (λ after. IsPushed (all_runs (program_tree (program_of c.now)).types (turns_of c.now) (sts (take ((at + 1) - at) (drop at (program_tree (program_of c.now)).body)))) columns.now.columns after.columns) }
    ensures scale { IfOk result (λ after. after.scale ≡ whole_scale c.now) }
    ensures below { IfOk result (λ after. All (IsBelow (shape_size (program_of c.now).shape)) after.columns) }
    ensures ready { IfOk result (λ after. IsReady (program_tree (program_of c.now)).types (turns_of c.now) (drop (at + 1) (program_tree (program_of c.now)).body) after.columns) }
{
    run_laws();
    are_columns(columns);
    let program = c.program();
    let statement = &program.body.as_slice()[at];
    let after = push_one(alloc, &program.shape, c.turns(), statement, None, columns)?;
    Ok(after)
}

/// What columns of stores become in the outermost statements from the one at `from` on, up to but not with the one at `to`.
///
/// Columns of one posterior are added up behind each statement, also inside branches and loops, so that no more is kept
/// than one column for each belief that an observer may hold. Weights are over the program's scale, before and behind.
pub fn push(
    alloc: Global,
    c: &Cleared,
    from: usize,
    to: usize,
    columns: &Columns,
) -> Result<Columns, Mem>
    requires order { from ≤ to }
    requires within { to ≤ length (program_tree (program_of c.now)).body }
    requires scale { columns.now.scale ≡ whole_scale c.now }
    requires below { All (IsBelow (shape_size (program_of c.now).shape)) columns.now.columns }
    requires ready { IsReady (program_tree (program_of c.now)).types (turns_of c.now) (drop from (program_tree (program_of c.now)).body) columns.now.columns }
    ensures pushed { IfOk result (λ after. IsPushed (all_runs (program_tree (program_of c.now)).types (turns_of c.now) (sts (take (to - from) (drop from (program_tree (program_of c.now)).body)))) columns.now.columns after.columns) }
    ensures scale { IfOk result (λ after. after.scale ≡ whole_scale c.now) }
    ensures below { IfOk result (λ after. All (IsBelow (shape_size (program_of c.now).shape)) after.columns) }
    ensures ready { IfOk result (λ after. IsReady (program_tree (program_of c.now)).types (turns_of c.now) (drop to (program_tree (program_of c.now)).body) after.columns) }
{
    run_laws();
    are_columns(columns);
    let merged = merge(alloc, columns)?;
    let program = c.program();
    let statements = &program.body.as_slice()[from..to];
    let after = push_all(alloc, &program.shape, c.turns(), statements, None, merged)?;
    Ok(after)
}

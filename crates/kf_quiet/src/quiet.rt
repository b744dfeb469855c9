//! The hyper of a program with a quiet block.

ghost use Rattle.std.specs.Prelude.{◌≡◌, ◌≤◌, ◌<◌, [], ◌∷◌, All, length, drop, IfOk};
ghost use Rattle.kf_column.specs.Columns.{total};
ghost use Rattle.kf_column.specs.Joint.{mass};
ghost use Rattle.kf_column.specs.Shapes.{IsBelow};
ghost use Rattle.kf_core.specs.Pushing.{AreBehind};
ghost use Rattle.kf_core.specs.Ready.{IsReady};
ghost use Rattle.kf_core.specs.Rows.{IsHyperOf};
ghost use Rattle.kf_hyper.specs.Views.{inners_of, scale_of, target_of};
ghost use Rattle.kf_push.specs.Meanings.{runs_between, store_count};
ghost use Rattle.kf_silent.specs.Quiet.{hushed, quiet_joint};
ghost use Rattle.kf_quiet.specs.Standing.{StandsBefore};

use crate::before::{bring, first_before};
use kf_core::{choice_laws, run_laws};
use kf_hyper::{Column, ColumnList, Columns, Hyper};
use kf_push::{Pusher, about_target, alone, are_columns, sum_of};
use kf_value::Mem;
use std::alloc::Global;

/// What one column becomes in a quiet block: the sum of all that stands behind the block.
fn hush_one<P: Pusher>(
    alloc: Global,
    p: &P,
    from: usize,
    to: usize,
    column: &Column,
) -> Result<Column, Mem>
    requires order { from ≤ to }
    requires within { to ≤ length (P.meaning p.now).program.body }
    requires fits { total column.now ≤ (P.meaning p.now).scale }
    requires below { IsBelow (store_count (P.meaning p.now)) column.now }
    requires ready { IsReady (P.meaning p.now).program.types (P.meaning p.now).turns (drop from (P.meaning p.now).program.body) (column.now ∷ []) }
    ensures behind { IfOk result (λ after. AreBehind (λ n. hushed (runs_between (P.meaning p.now) from to n)) (column.now ∷ []) (after ∷ [])) }
    ensures below { IfOk result (λ after. IsBelow (store_count (P.meaning p.now)) after) }
    ensures total { IfOk result (λ after. total after ≡ total column.now) }
{
    p.program();
    column.is_column();
    let one = alone(alloc, p.scale(), column.copy(alloc)?)?;
    let after = p.push(alloc, from, to, &one)?;
    let erased = sum_of(alloc, &after)?;
    erased.is_column();
    Ok(erased)
}

/// What columns become in a quiet block: each goes through it alone, and what comes of it is added up.
fn hush_all<P: Pusher>(
    alloc: Global,
    p: &P,
    from: usize,
    to: usize,
    columns: &Columns,
) -> Result<Columns, Mem>
    requires order { from ≤ to }
    requires within { to ≤ length (P.meaning p.now).program.body }
    requires scale { columns.now.scale ≡ (P.meaning p.now).scale }
    requires below { All (IsBelow (store_count (P.meaning p.now))) columns.now.columns }
    requires ready { IsReady (P.meaning p.now).program.types (P.meaning p.now).turns (drop from (P.meaning p.now).program.body) columns.now.columns }
    ensures behind { IfOk result (λ after. AreBehind (λ n. hushed (runs_between (P.meaning p.now) from to n)) columns.now.columns after.columns) }
    ensures scale { IfOk result (λ after. after.scale ≡ (P.meaning p.now).scale) }
    ensures below { IfOk result (λ after. All (IsBelow (store_count (P.meaning p.now))) after.columns) }
    ensures mass { IfOk result (λ after. mass after.columns ≡ mass columns.now.columns) }
{
    run_laws();
    are_columns(columns);
    let mut list = Vec::new(alloc);
    for column in columns.columns().as_slice() {
        list.push(hush_one(alloc, p, from, to, column)?)?;
    }
    Ok(Columns::new(columns.scale(), ColumnList::new(list)))
}

/// The hyper of a program whose outermost statements from the one at `from` on, up to but not with the one at `to`, are quiet, from the
/// columns before them.
pub fn quiet_from<P: Pusher>(
    alloc: Global,
    p: &P,
    from: usize,
    to: usize,
    before: &Columns,
) -> Result<Hyper, Mem>
    requires some { from < to }
    requires within { to ≤ length (P.meaning p.now).program.body }
    requires stands { StandsBefore (P.meaning p.now) from before.now }
    ensures hyper { IfOk result (λ h. IsHyperOf (quiet_joint (P.meaning p.now).turns (P.meaning p.now).program from to) (inners_of h)) }
    ensures scale { IfOk result (λ h. scale_of h ≡ (P.meaning p.now).scale) }
    ensures target { IfOk result (λ h. target_of h ≡ (P.meaning p.now).program.target) }
{
    choice_laws();
    run_laws();
    let program = p.program();
    let hushed = hush_all(alloc, p, from, to, before)?;
    let after = p.push(alloc, to, program.body.as_slice().len(), &hushed)?;
    let hyper = about_target(alloc, program, &after)?;
    Ok(hyper)
}

/// The hyper of a program whose outermost statements from the one at `from` on, counted from 0, up to but not with the one at `to`,
/// are quiet: what is seen of them together is nothing. They do what they do.
pub fn quiet_hyper<P: Pusher>(alloc: Global, p: &P, from: usize, to: usize) -> Result<Hyper, Mem>
    requires some { from < to }
    requires within { to ≤ length (P.meaning p.now).program.body }
    ensures hyper { IfOk result (λ h. IsHyperOf (quiet_joint (P.meaning p.now).turns (P.meaning p.now).program from to) (inners_of h)) }
    ensures scale { IfOk result (λ h. scale_of h ≡ (P.meaning p.now).scale) }
    ensures target { IfOk result (λ h. target_of h ≡ (P.meaning p.now).program.target) }
{
    let mut before = first_before(alloc, p)?;
    bring(alloc, p, &mut before, from)?;
    let hyper = quiet_from(alloc, p, from, to, &before.columns)?;
    Ok(hyper)
}

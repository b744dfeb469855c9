//! What simple statements and guards make of columns.

ghost use Rattle.std.specs.Prelude.{◌≡◌, ◌<◌, ℕ, true, false, length, List, All, IfOk, IfSome};
ghost use Rattle.kf_value.specs.Forms.{IsWellFormed};
ghost use Rattle.kf_value.specs.Kinds.{KindTree, TruthKind};
ghost use Rattle.kf_value.specs.Shapes.{shape_size, shape_types};
ghost use Rattle.kf_value.specs.Values.{ValueTree};
ghost use Rattle.kf_value.specs.Views.{value_tree};
ghost use Rattle.kf_column.specs.declared.entry.Entry.{Entry as EntryTree};
ghost use Rattle.kf_column.specs.Joint.{IsJoint};
ghost use Rattle.kf_column.specs.Shapes.{IsBelow};
ghost use Rattle.kf_core.specs.Checked.{DistKinded, IsChecked};
ghost use Rattle.kf_core.specs.Ready.{IsPushed};
ghost use Rattle.kf_core.specs.Runs.{Run, assigned, copied, leaks, stay, tried};
ghost use Rattle.kf_core.specs.Views.{dx_tree, program_tree};
ghost use Rattle.kf_core.specs.Leaks.{silent};
ghost use Rattle.kf_eval.specs.Kinds.{shape_kinds};
ghost use Rattle.kf_eval.specs.Memos.{IsMemoOf};
ghost use Rattle.kf_push.specs.Following.{Goes, observed, side};
ghost use Rattle.kf_run.specs.Following.{shown_to};
ghost use Rattle.kf_run.specs.Forgetting.{forgetting};
ghost use Rattle.kf_run.specs.Going.{AreSides};
ghost use Rattle.kf_run.specs.Spreading.{AreSpread};

use crate::assigned::{copy_column, move_column};
use crate::forgotten::{forget_column, varies};
use crate::guards::side_column;
use crate::observation::show_column;
use kf_core::{Dx, Program};
use kf_eval::{Memo, dist_reads, value_in};
use kf_hyper::{Column, ColumnList, Columns, merge_owned};
use kf_push::are_columns;
use kf_value::{Mem, Shape, Value};
use std::alloc::Global;

/// The columns over this scale, with those of one posterior added up.
fn merged(alloc: Global, scale: u128, list: Vec<Column>) -> Result<Columns, Mem>
    requires joint { IsJoint (record { scale = scale; columns = list.items }) }
    ensures { IfOk result (λ after. (from : ℕ → List Run) (size : ℕ) (columns : List (List EntryTree)) → AreSpread from size columns list.items
        → IsPushed from columns after.columns × (after.scale ≡ scale) × All (IsBelow size) after.columns) }
{
    let behind = Columns::new(scale, ColumnList::new(list));
    let merged = merge_owned(alloc, behind)?;
    Ok(merged)
}

/// A memo for the stores of all columns.
fn memo_for(alloc: Global, shape: &Shape, dist: &Dx, columns: &Columns) -> Result<Memo, Mem>
    ensures { IfOk result (λ memo. IsMemoOf shape.now (dx_tree dist.now) memo) }
{
    let mut asked: usize = 0;
    for column in columns.columns().as_slice() {
        asked = asked.saturating_add(column.entries().as_slice().len());
    }
    let memo = Memo::new(alloc, shape, dist, asked)?;
    Ok(memo)
}

/// What columns become where the variable at `slot` takes a value that isn't leaked, each store gone along by itself.
fn spread(
    alloc: Global,
    shape: &Shape,
    slot: usize,
    dist: &Dx,
    columns: &Columns,
) -> Result<Columns, Mem>
    requires variable { slot < length (shape_types shape.now) }
    requires kinded { (k : KindTree) × DistKinded (shape_kinds shape.now) (dx_tree dist.now) k }
    requires below { All (IsBelow (shape_size shape.now)) columns.now.columns }
    requires goes { Goes (assigned silent (shape_types shape.now) slot (dx_tree dist.now)) columns.now.columns }
    ensures pushed { IfOk result (λ after. IsPushed (assigned silent (shape_types shape.now) slot (dx_tree dist.now)) columns.now.columns after.columns) }
    ensures scale { IfOk result (λ after. after.scale ≡ columns.now.scale) }
    ensures below { IfOk result (λ after. All (IsBelow (shape_size shape.now)) after.columns) }
{
    let mut memo = memo_for(alloc, shape, dist, columns)?;
    let mut list = Vec::new(alloc);
    for column in columns.columns().as_slice() {
        move_column(alloc, shape, slot, dist, &mut memo, column, &mut list)?;
    }
    let after = merged(alloc, columns.scale(), list)?;
    Ok(after)
}

/// The columns with the variable at `slot` set to the value in every store, those of one posterior added up.
fn set_to(
    alloc: Global,
    shape: &Shape,
    slot: usize,
    value: &Value,
    columns: &Columns,
) -> Result<Columns, Mem>
    requires variable { slot < length (shape_types shape.now) }
    requires formed { IsWellFormed (value_tree value.now) }
    requires below { All (IsBelow (shape_size shape.now)) columns.now.columns }
    ensures pushed { IfOk result (λ after. IsPushed (forgetting (shape_types shape.now) slot (value_tree value.now)) columns.now.columns after.columns) }
    ensures scale { IfOk result (λ after. after.scale ≡ columns.now.scale) }
    ensures below { IfOk result (λ after. All (IsBelow (shape_size shape.now)) after.columns) }
{
    let mut list = Vec::new(alloc);
    for column in columns.columns().as_slice() {
        forget_column(alloc, shape, slot, value, column, &mut list)?;
    }
    let after = merged(alloc, columns.scale(), list)?;
    Ok(after)
}

/// The columns with the variable at `slot` forgotten: whatever it held, it has the value that it has in the first store.
fn forget(alloc: Global, shape: &Shape, slot: usize, columns: &Columns) -> Result<Columns, Mem>
    requires variable { slot < length (shape_types shape.now) }
    requires below { All (IsBelow (shape_size shape.now)) columns.now.columns }
    ensures pushed { IfOk result (λ after. (v : ValueTree) × IsPushed (forgetting (shape_types shape.now) slot v) columns.now.columns after.columns) }
    ensures scale { IfOk result (λ after. after.scale ≡ columns.now.scale) }
    ensures below { IfOk result (λ after. All (IsBelow (shape_size shape.now)) after.columns) }
{
    let value = value_in(alloc, shape, 0, slot)?;
    set_to(alloc, shape, slot, &value, columns)
}

/// What columns become where the variable at `slot` takes a value that isn't leaked, with those of one posterior added up.
///
/// Where the value doesn't depend on what the variable held, that is forgotten first, if stores differ in it: then there are fewer stores, and
/// maybe fewer columns, to go on from.
pub fn assign(
    alloc: Global,
    shape: &Shape,
    slot: usize,
    dist: &Dx,
    columns: &Columns,
) -> Result<Columns, Mem>
    requires variable { slot < length (shape_types shape.now) }
    requires kinded { (k : KindTree) × DistKinded (shape_kinds shape.now) (dx_tree dist.now) k }
    requires below { All (IsBelow (shape_size shape.now)) columns.now.columns }
    requires goes { Goes (assigned silent (shape_types shape.now) slot (dx_tree dist.now)) columns.now.columns }
    ensures pushed { IfOk result (λ after. IsPushed (assigned silent (shape_types shape.now) slot (dx_tree dist.now)) columns.now.columns after.columns) }
    ensures scale { IfOk result (λ after. after.scale ≡ columns.now.scale) }
    ensures below { IfOk result (λ after. All (IsBelow (shape_size shape.now)) after.columns) }
{
    if dist_reads(dist, slot) || !varies(shape, slot, columns) {
        return spread(alloc, shape, slot, dist, columns);
    }
    are_columns(columns);
    let forgotten = forget(alloc, shape, slot, columns)?;
    spread(alloc, shape, slot, dist, &forgotten)
}

/// What columns become where a value is leaked, with those of one posterior added up. Where `into` names a variable, it takes the value.
pub fn show(
    alloc: Global,
    shape: &Shape,
    into: Option<usize>,
    dist: &Dx,
    columns: &Columns,
) -> Result<Columns, Mem>
    requires variable { IfSome into (λ slot. slot < length (shape_types shape.now)) }
    requires kinded { (k : KindTree) × DistKinded (shape_kinds shape.now) (dx_tree dist.now) k }
    requires below { All (IsBelow (shape_size shape.now)) columns.now.columns }
    requires goes { Goes (shown_to (shape_types shape.now) into (dx_tree dist.now)) columns.now.columns }
    ensures pushed { IfOk result (λ after. IsPushed (shown_to (shape_types shape.now) into (dx_tree dist.now)) columns.now.columns after.columns) }
    ensures scale { IfOk result (λ after. after.scale ≡ columns.now.scale) }
    ensures below { IfOk result (λ after. All (IsBelow (shape_size shape.now)) after.columns) }
{
    let mut memo = memo_for(alloc, shape, dist, columns)?;
    let mut list = Vec::new(alloc);
    for column in columns.columns().as_slice() {
        show_column(alloc, shape, into, dist, &mut memo, column, &mut list)?;
    }
    let after = merged(alloc, columns.scale(), list)?;
    Ok(after)
}

/// What columns become where the variable at `slot` takes a value, which is leaked where it is `shown`.
pub fn assignment(
    alloc: Global,
    shape: &Shape,
    slot: usize,
    dist: &Dx,
    shown: bool,
    columns: &Columns,
) -> Result<Columns, Mem>
    requires variable { slot < length (shape_types shape.now) }
    requires kinded { (k : KindTree) × DistKinded (shape_kinds shape.now) (dx_tree dist.now) k }
    requires below { All (IsBelow (shape_size shape.now)) columns.now.columns }
    requires goes { Goes (assigned (leaks shown) (shape_types shape.now) slot (dx_tree dist.now)) columns.now.columns }
    ensures pushed { IfOk result (λ after. IsPushed (assigned (leaks shown) (shape_types shape.now) slot (dx_tree dist.now)) columns.now.columns after.columns) }
    ensures scale { IfOk result (λ after. after.scale ≡ columns.now.scale) }
    ensures below { IfOk result (λ after. All (IsBelow (shape_size shape.now)) after.columns) }
{
    if shown {
        show(alloc, shape, Some(slot), dist, columns)
    } else {
        assign(alloc, shape, slot, dist, columns)
    }
}

/// Columns by the value of a guard.
#[derive(Drop)]
pub struct Sides {
    /// The columns of stores where it was true.
    pub taken: Columns,
    /// The columns of stores where it was false.
    pub left: Columns,
}

/// The columns parted by a guard's value, with those of one posterior added up on each side.
pub fn guard(alloc: Global, shape: &Shape, dist: &Dx, columns: &Columns) -> Result<Sides, Mem>
    requires kinded { DistKinded (shape_kinds shape.now) (dx_tree dist.now) TruthKind }
    requires below { All (IsBelow (shape_size shape.now)) columns.now.columns }
    requires goes { Goes (observed (tried (shape_types shape.now) (dx_tree dist.now))) columns.now.columns }
    ensures { IfOk result (λ sides. AreSides (shape_size shape.now) (tried (shape_types shape.now) (dx_tree dist.now)) columns.now sides.taken sides.left) }
{
    let mut memo = memo_for(alloc, shape, dist, columns)?;
    let mut held = Vec::new(alloc);
    let mut failed = Vec::new(alloc);
    for column in columns.columns().as_slice() {
        side_column(
            alloc,
            shape,
            dist,
            &mut memo,
            column,
            &mut held,
            &mut failed,
        )?;
    }
    let taken = merged(alloc, columns.scale(), held)?;
    let left = merged(alloc, columns.scale(), failed)?;
    Ok(Sides { taken, left })
}

/// The columns with each store's carried copies set, those of one posterior added up.
pub fn copy(alloc: Global, program: &Program, columns: &Columns) -> Result<Columns, Mem>
    requires checked { IsChecked (program_tree program.now) }
    requires below { All (IsBelow (shape_size program.now.shape)) columns.now.columns }
    ensures pushed { IfOk result (λ after. IsPushed (λ n. stay (copied (program_tree program.now) n)) columns.now.columns after.columns) }
    ensures scale { IfOk result (λ after. after.scale ≡ columns.now.scale) }
    ensures below { IfOk result (λ after. All (IsBelow (shape_size program.now.shape)) after.columns) }
{
    let mut list = Vec::new(alloc);
    for column in columns.columns().as_slice() {
        copy_column(alloc, program, column, &mut list)?;
    }
    let after = merged(alloc, columns.scale(), list)?;
    Ok(after)
}

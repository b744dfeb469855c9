//! What an assignment that leaks nothing makes of a column, and what setting the carried copies makes of it.

ghost use Rattle.std.specs.Prelude.{◌≡◌, ◌<◌, ◌*◌, ◌^◌, ◌++◌, [], ◌∷◌, All, length, map, flat_map, OnOk};
ghost use Rattle.kf_value.specs.Forms.{IsWellFormed};
ghost use Rattle.kf_value.specs.Kinds.{KindTree};
ghost use Rattle.kf_value.specs.Shapes.{shape_size, shape_types};
ghost use Rattle.kf_column.specs.Columns.{total as column_total};
ghost use Rattle.kf_column.specs.Shapes.{IsBelow};
ghost use Rattle.kf_core.specs.Checked.{DistKinded, IsChecked};
ghost use Rattle.kf_core.specs.Choices.{total};
ghost use Rattle.kf_core.specs.Runs.{assigned, copied, stay};
ghost use Rattle.kf_core.specs.Views.{dx_tree, program_tree};
ghost use Rattle.kf_core.specs.Leaks.{silent};
ghost use Rattle.kf_eval.specs.Choices.{weighted_trees};
ghost use Rattle.kf_eval.specs.Kinds.{shape_kinds};
ghost use Rattle.kf_eval.specs.Memos.{IsMemoOf};
ghost use Rattle.kf_push.specs.Following.{Takes};
ghost use Rattle.kf_run.specs.Ways.{Adds, HasRows, along, moves};

use crate::choices::{chosen_in, share_of};
use crate::column_spread::add_column;
use kf_core::{Dx, Program};
use kf_eval::{Choice, Memo};
use kf_hyper::{Column, Entry};
use kf_support::{copied_store, moved};
use kf_value::{Mem, Shape};
use std::alloc::Global;

/// Adds where each choice leads. A value that isn't of the variable's type leads nowhere.
fn add_moves(
    shape: &Shape,
    slot: usize,
    store: u64,
    share: u128,
    choice: &Choice,
    behind: &mut Vec<Entry>,
) -> Result<(), Mem>
    requires variable { slot < length (shape_types shape.now) }
    requires store { store < shape_size shape.now }
    requires formed { All (λ w. IsWellFormed w.value) (weighted_trees choice.now) }
    requires fits { share * total (weighted_trees choice.now) < 2 ^ 128 }
    ensures added { OnOk result (map (along []) behind.new.items ≡ map (along []) behind.old.items ++ flat_map (moves (shape_types shape.now) slot store share) (weighted_trees choice.now)) }
    ensures below { OnOk result (IsBelow (shape_size shape.now) behind.old.items → IsBelow (shape_size shape.now) behind.new.items) }
{
    for weighted in choice.items.as_slice() {
        if let Some(after) = moved(shape, slot, store, &weighted.value) {
            behind.push(Entry {
                value: after,
                weight: share * weighted.weight,
            })?;
        }
    }
    Ok(())
}

/// Adds where an assignment leads from a store, with the store's weight shared out.
fn move_entry(
    alloc: Global,
    shape: &Shape,
    slot: usize,
    dist: &Dx,
    memo: &mut Memo,
    entry: Entry,
    behind: &mut Vec<Entry>,
) -> Result<(), Mem>
    requires variable { slot < length (shape_types shape.now) }
    requires kinded { (k : KindTree) × DistKinded (shape_kinds shape.now) (dx_tree dist.now) k }
    requires memo { IsMemoOf shape.now (dx_tree dist.now) memo.old }
    requires store { entry.value < shape_size shape.now }
    requires some { 0 < entry.weight }
    requires takes { All (Takes entry.weight) (assigned silent (shape_types shape.now) slot (dx_tree dist.now) entry.value) }
    ensures memo { OnOk result (IsMemoOf shape.now (dx_tree dist.now) memo.new) }
    ensures added { OnOk result (Adds (assigned silent (shape_types shape.now) slot (dx_tree dist.now)) (entry ∷ []) (map (along []) behind.old.items) (map (along []) behind.new.items)) }
    ensures below { OnOk result (IsBelow (shape_size shape.now) behind.old.items → IsBelow (shape_size shape.now) behind.new.items) }
{
    let choice_at = chosen_in(alloc, shape, dist, memo, entry.value)?;
    let choice = memo.at(choice_at);
    let share = share_of(entry.weight, choice.total);
    add_moves(shape, slot, entry.value, share, choice, behind)?;
    Ok(())
}

/// Adds the column behind an assignment that leaks nothing.
pub fn move_column(
    alloc: Global,
    shape: &Shape,
    slot: usize,
    dist: &Dx,
    memo: &mut Memo,
    column: &Column,
    list: &mut Vec<Column>,
) -> Result<(), Mem>
    requires variable { slot < length (shape_types shape.now) }
    requires kinded { (k : KindTree) × DistKinded (shape_kinds shape.now) (dx_tree dist.now) k }
    requires memo { IsMemoOf shape.now (dx_tree dist.now) memo.old }
    requires below { IsBelow (shape_size shape.now) column.now }
    requires fits { column_total column.now < 2 ^ 128 }
    requires goes { All (λ e. All (Takes e.weight) (assigned silent (shape_types shape.now) slot (dx_tree dist.now) e.value)) column.now }
    ensures memo { OnOk result (IsMemoOf shape.now (dx_tree dist.now) memo.new) }
    ensures rows { OnOk result (HasRows (assigned silent (shape_types shape.now) slot (dx_tree dist.now)) (shape_size shape.now) column.now list.old.items list.new.items) }
{
    let entries = column.entries().as_slice();
    let mut behind = Vec::with_capacity(alloc, entries.len())?;
    for entry in entries {
        move_entry(alloc, shape, slot, dist, memo, *entry, &mut behind)?;
    }
    add_column(behind, list)?;
    Ok(())
}

/// Adds the store with its carried copies set, with the weight.
fn copy_entry(program: &Program, entry: Entry, behind: &mut Vec<Entry>) -> Result<(), Mem>
    requires checked { IsChecked (program_tree program.now) }
    requires store { entry.value < shape_size program.now.shape }
    requires some { 0 < entry.weight }
    ensures added { OnOk result (Adds (λ n. stay (copied (program_tree program.now) n)) (entry ∷ []) (map (along []) behind.old.items) (map (along []) behind.new.items)) }
    ensures below { OnOk result (IsBelow (shape_size program.now.shape) behind.old.items → IsBelow (shape_size program.now.shape) behind.new.items) }
{
    let value = copied_store(program, entry.value);
    behind.push(Entry {
        value,
        weight: entry.weight,
    })?;
    Ok(())
}

/// Adds the column with each store's carried copies set.
pub fn copy_column(
    alloc: Global,
    program: &Program,
    column: &Column,
    list: &mut Vec<Column>,
) -> Result<(), Mem>
    requires checked { IsChecked (program_tree program.now) }
    requires below { IsBelow (shape_size program.now.shape) column.now }
    requires fits { column_total column.now < 2 ^ 128 }
    ensures { OnOk result (HasRows (λ n. stay (copied (program_tree program.now) n)) (shape_size program.now.shape) column.now list.old.items list.new.items) }
{
    let entries = column.entries().as_slice();
    let mut behind = Vec::with_capacity(alloc, entries.len())?;
    for entry in entries {
        copy_entry(program, *entry, &mut behind)?;
    }
    add_column(behind, list)?;
    Ok(())
}

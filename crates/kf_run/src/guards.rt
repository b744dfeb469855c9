//! What a guard makes of a column.

ghost use Rattle.std.specs.Prelude.{◌≡◌, ◌<◌, ◌*◌, ◌^◌, ◌++◌, [], ◌∷◌, ℕ, All, true, false, map, flat_map, OnOk};
ghost use Rattle.kf_value.specs.Kinds.{TruthKind};
ghost use Rattle.kf_value.specs.Shapes.{shape_size, shape_types};
ghost use Rattle.kf_value.specs.Values.{Truth};
ghost use Rattle.kf_column.specs.Columns.{total as column_total};
ghost use Rattle.kf_column.specs.Shapes.{IsBelow};
ghost use Rattle.kf_core.specs.Checked.{DistKinded};
ghost use Rattle.kf_core.specs.Choices.{total};
ghost use Rattle.kf_core.specs.Runs.{tried};
ghost use Rattle.kf_core.specs.Views.{dx_tree};
ghost use Rattle.kf_eval.specs.Choices.{weighted_trees};
ghost use Rattle.kf_eval.specs.Kinds.{shape_kinds};
ghost use Rattle.kf_eval.specs.Memos.{IsMemoOf};
ghost use Rattle.kf_push.specs.Following.{Takes, observed, side};
ghost use Rattle.kf_run.specs.Ways.{Adds, HasRows, along, sides};

use crate::choices::{chosen_in, share_of};
use crate::column_spread::add_column;
use kf_core::Dx;
use kf_eval::{Choice, Memo};
use kf_hyper::{Column, Entry};
use kf_value::{Mem, Shape, is_true};
use std::alloc::Global;

/// Adds the store on the side of each choice.
fn add_sides(
    store: u64,
    share: u128,
    choice: &Choice,
    taken: &mut Vec<Entry>,
    left: &mut Vec<Entry>,
) -> Result<(), Mem>
    requires fits { share * total (weighted_trees choice.now) < 2 ^ 128 }
    ensures taken { OnOk result (map (along (Truth true ∷ [])) taken.new.items ≡ map (along (Truth true ∷ [])) taken.old.items ++ flat_map (sides true store share) (weighted_trees choice.now)) }
    ensures left { OnOk result (map (along (Truth false ∷ [])) left.new.items ≡ map (along (Truth false ∷ [])) left.old.items ++ flat_map (sides false store share) (weighted_trees choice.now)) }
    ensures below_taken { OnOk result ((size : ℕ) → store < size → IsBelow size taken.old.items → IsBelow size taken.new.items) }
    ensures below_left { OnOk result ((size : ℕ) → store < size → IsBelow size left.old.items → IsBelow size left.new.items) }
{
    for weighted in choice.items.as_slice() {
        let entry = Entry {
            value: store,
            weight: share * weighted.weight,
        };
        if is_true(&weighted.value) {
            taken.push(entry)?;
        } else {
            left.push(entry)?;
        }
    }
    Ok(())
}

/// Adds a store on the sides of a guard, with the store's weight shared out.
fn side_entry(
    alloc: Global,
    shape: &Shape,
    dist: &Dx,
    memo: &mut Memo,
    entry: Entry,
    taken: &mut Vec<Entry>,
    left: &mut Vec<Entry>,
) -> Result<(), Mem>
    requires kinded { DistKinded (shape_kinds shape.now) (dx_tree dist.now) TruthKind }
    requires memo { IsMemoOf shape.now (dx_tree dist.now) memo.old }
    requires store { entry.value < shape_size shape.now }
    requires some { 0 < entry.weight }
    requires takes { All (Takes entry.weight) (observed (tried (shape_types shape.now) (dx_tree dist.now)) entry.value) }
    ensures memo { OnOk result (IsMemoOf shape.now (dx_tree dist.now) memo.new) }
    ensures taken { OnOk result (Adds (side true (tried (shape_types shape.now) (dx_tree dist.now))) (entry ∷ []) (map (along (Truth true ∷ [])) taken.old.items) (map (along (Truth true ∷ [])) taken.new.items)) }
    ensures left { OnOk result (Adds (side false (tried (shape_types shape.now) (dx_tree dist.now))) (entry ∷ []) (map (along (Truth false ∷ [])) left.old.items) (map (along (Truth false ∷ [])) left.new.items)) }
    ensures below_taken { OnOk result (IsBelow (shape_size shape.now) taken.old.items → IsBelow (shape_size shape.now) taken.new.items) }
    ensures below_left { OnOk result (IsBelow (shape_size shape.now) left.old.items → IsBelow (shape_size shape.now) left.new.items) }
{
    let choice_at = chosen_in(alloc, shape, dist, memo, entry.value)?;
    let choice = memo.at(choice_at);
    let share = share_of(entry.weight, choice.total);
    add_sides(entry.value, share, choice, taken, left)?;
    Ok(())
}

/// Adds the column of each side of a guard.
pub fn side_column(
    alloc: Global,
    shape: &Shape,
    dist: &Dx,
    memo: &mut Memo,
    column: &Column,
    held: &mut Vec<Column>,
    failed: &mut Vec<Column>,
) -> Result<(), Mem>
    requires kinded { DistKinded (shape_kinds shape.now) (dx_tree dist.now) TruthKind }
    requires memo { IsMemoOf shape.now (dx_tree dist.now) memo.old }
    requires below { IsBelow (shape_size shape.now) column.now }
    requires fits { column_total column.now < 2 ^ 128 }
    requires goes { All (λ e. All (Takes e.weight) (observed (tried (shape_types shape.now) (dx_tree dist.now)) e.value)) column.now }
    ensures memo { OnOk result (IsMemoOf shape.now (dx_tree dist.now) memo.new) }
    ensures taken { OnOk result (HasRows (side true (tried (shape_types shape.now) (dx_tree dist.now))) (shape_size shape.now) column.now held.old.items held.new.items) }
    ensures left { OnOk result (HasRows (side false (tried (shape_types shape.now) (dx_tree dist.now))) (shape_size shape.now) column.now failed.old.items failed.new.items) }
{
    let mut taken = Vec::new(alloc);
    let mut left = Vec::new(alloc);
    for entry in column.entries().as_slice() {
        side_entry(alloc, shape, dist, memo, *entry, &mut taken, &mut left)?;
    }
    add_column(taken, held)?;
    add_column(left, failed)?;
    Ok(())
}

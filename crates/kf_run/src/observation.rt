//! What a statement that leaks a value makes of a column.

ghost use Rattle.std.specs.Prelude.{◌≡◌, ◌<◌, ◌*◌, ◌^◌, ◌++◌, ◌∷◌, [], All, length, map, flat_map, IfSome, OnOk};
ghost use Rattle.kf_value.specs.Forms.{IsWellFormed};
ghost use Rattle.kf_value.specs.Kinds.{KindTree};
ghost use Rattle.kf_value.specs.Shapes.{shape_size, shape_types};
ghost use Rattle.kf_column.specs.Columns.{total as column_total};
ghost use Rattle.kf_column.specs.Shapes.{IsBelow};
ghost use Rattle.kf_core.specs.Checked.{DistKinded};
ghost use Rattle.kf_core.specs.Choices.{total};
ghost use Rattle.kf_core.specs.Views.{dx_tree};
ghost use Rattle.kf_eval.specs.Choices.{weighted_trees};
ghost use Rattle.kf_eval.specs.Kinds.{shape_kinds};
ghost use Rattle.kf_eval.specs.Memos.{IsMemoOf};
ghost use Rattle.kf_push.specs.Following.{Takes};
ghost use Rattle.kf_run.specs.Following.{shown_to};
ghost use Rattle.kf_run.specs.Ways.{Adds, HasRows, leaked, shows};

use crate::choices::{chosen_in, share_of};
use crate::column_spread::add_columns;
use crate::ways::Leak;
use kf_core::Dx;
use kf_eval::{Choice, Memo};
use kf_hyper::{Column, Entry};
use kf_support::store_behind;
use kf_value::{Mem, Shape};
use std::alloc::Global;

/// Adds what each choice leaks. A value that isn't of the type of the variable that takes it leads nowhere.
fn add_leaks(
    alloc: Global,
    shape: &Shape,
    into: Option<usize>,
    store: u64,
    share: u128,
    choice: &Choice,
    leaks: &mut Vec<Leak>,
) -> Result<(), Mem>
    requires variable { IfSome into (λ slot. slot < length (shape_types shape.now)) }
    requires store { store < shape_size shape.now }
    requires formed { All (λ w. IsWellFormed w.value) (weighted_trees choice.now) }
    requires fits { share * total (weighted_trees choice.now) < 2 ^ 128 }
    ensures added { OnOk result (map leaked leaks.new.items ≡ map leaked leaks.old.items ++ flat_map (shows (shape_types shape.now) into store share) (weighted_trees choice.now)) }
    ensures below { OnOk result (All (λ l. l.to < shape_size shape.now) leaks.old.items → All (λ l. l.to < shape_size shape.now) leaks.new.items) }
{
    for weighted in choice.items.as_slice() {
        if let Some(to) = store_behind(shape, into, store, &weighted.value) {
            leaks.push(Leak {
                value: weighted.value.copy(alloc)?,
                to,
                weight: share * weighted.weight,
            })?;
        }
    }
    Ok(())
}

/// Adds what is leaked in a store, with the store's weight shared out.
fn show_entry(
    alloc: Global,
    shape: &Shape,
    into: Option<usize>,
    dist: &Dx,
    memo: &mut Memo,
    entry: Entry,
    leaks: &mut Vec<Leak>,
) -> Result<(), Mem>
    requires variable { IfSome into (λ slot. slot < length (shape_types shape.now)) }
    requires kinded { (k : KindTree) × DistKinded (shape_kinds shape.now) (dx_tree dist.now) k }
    requires memo { IsMemoOf shape.now (dx_tree dist.now) memo.old }
    requires store { entry.value < shape_size shape.now }
    requires some { 0 < entry.weight }
    requires takes { All (Takes entry.weight) (shown_to (shape_types shape.now) into (dx_tree dist.now) entry.value) }
    ensures memo { OnOk result (IsMemoOf shape.now (dx_tree dist.now) memo.new) }
    ensures added { OnOk result (Adds (shown_to (shape_types shape.now) into (dx_tree dist.now)) (entry ∷ []) (map leaked leaks.old.items) (map leaked leaks.new.items)) }
    ensures below { OnOk result (All (λ l. l.to < shape_size shape.now) leaks.old.items → All (λ l. l.to < shape_size shape.now) leaks.new.items) }
{
    let choice_at = chosen_in(alloc, shape, dist, memo, entry.value)?;
    let choice = memo.at(choice_at);
    let share = share_of(entry.weight, choice.total);
    add_leaks(alloc, shape, into, entry.value, share, choice, leaks)?;
    Ok(())
}

/// Adds a column for each value that is leaked in a store of the column. Where `into` names a variable, it takes the value.
pub fn show_column(
    alloc: Global,
    shape: &Shape,
    into: Option<usize>,
    dist: &Dx,
    memo: &mut Memo,
    column: &Column,
    list: &mut Vec<Column>,
) -> Result<(), Mem>
    requires variable { IfSome into (λ slot. slot < length (shape_types shape.now)) }
    requires kinded { (k : KindTree) × DistKinded (shape_kinds shape.now) (dx_tree dist.now) k }
    requires memo { IsMemoOf shape.now (dx_tree dist.now) memo.old }
    requires below { IsBelow (shape_size shape.now) column.now }
    requires fits { column_total column.now < 2 ^ 128 }
    requires goes { All (λ e. All (Takes e.weight) (shown_to (shape_types shape.now) into (dx_tree dist.now) e.value)) column.now }
    ensures memo { OnOk result (IsMemoOf shape.now (dx_tree dist.now) memo.new) }
    ensures rows { OnOk result (HasRows (shown_to (shape_types shape.now) into (dx_tree dist.now)) (shape_size shape.now) column.now list.old.items list.new.items) }
{
    let entries = column.entries().as_slice();
    let mut leaks = Vec::with_capacity(alloc, entries.len())?;
    for entry in entries {
        show_entry(alloc, shape, into, dist, memo, *entry, &mut leaks)?;
    }
    add_columns(alloc, leaks, list)?;
    Ok(())
}

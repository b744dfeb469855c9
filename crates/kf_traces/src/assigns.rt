//! Where assignments and carried copies lead a state's stores.

ghost use Rattle.std.specs.Prelude.{◌≡◌, ◌+◌, ◌*◌, ◌^◌, ◌<◌, [], length, map, IfOk, OnOk};
ghost use Rattle.std.specs.List.{All};
ghost use Rattle.kf_value.specs.Kinds.{KindTree};
ghost use Rattle.kf_value.specs.Forms.{IsWellFormed};
ghost use Rattle.kf_value.specs.Shapes.{shape_size, shape_types};
ghost use Rattle.kf_core.specs.Checked.{DistKinded, IsChecked};
ghost use Rattle.kf_core.specs.Choices.{total};
ghost use Rattle.kf_core.specs.Views.{dx_tree, program_tree};
ghost use Rattle.kf_eval.specs.Choices.{weighted_tree};
ghost use Rattle.kf_eval.specs.Kinds.{shape_kinds};
ghost use Rattle.kf_eval.specs.Memos.{IsMemoOf};
ghost use Rattle.kf_traces.specs.Laws.{sum_of};
ghost use Rattle.kf_traces.specs.Traced.{with_moves, assign_all, copy_all};
ghost use Rattle.kf_traces.specs.Views.{Fits};

use crate::choices::chosen_in;
use crate::weights::Weights;
use kf_core::{Dx, Program};
use kf_eval::{Memo, Weighted};
use kf_frac::quotient;
use kf_support::{copied_store, moved};
use kf_value::{Mem, Shape};
use std::alloc::Global;

/// Adds the shares of a store, each to the store where the variable at `slot` has the chosen value.
///
/// A choice weighs `share` times its weight. A value that isn't of the variable's type leads nowhere.
fn add_moves(
    shape: &Shape,
    slot: usize,
    store: u64,
    share: u128,
    choices: &[Weighted],
    reached: &mut Weights,
) -> Result<(), Mem>
    requires variable { slot < length (shape_types shape.now) }
    requires store { store < shape_size shape.now }
    requires formed { All (λ w. IsWellFormed w.value) (map weighted_tree choices.now) }
    requires below { All (λ e. e.0 < shape_size shape.now) reached.old }
    requires within { sum_of reached.old + share * total (map weighted_tree choices.now) < 2 ^ 127 }
    ensures moved { OnOk result (reached.new ≡ with_moves (shape_types shape.now) slot store reached.old share (map weighted_tree choices.now)) }
    ensures below { OnOk result (All (λ e. e.0 < shape_size shape.now) reached.new) }
{
    for choice in choices {
        if let Some(after) = moved(shape, slot, store, &choice.value) {
            reached.add_weight(after, share * choice.weight)?;
        }
    }
    Ok(())
}

/// Where an assignment to the variable at `slot` leads, each way with its share of the weight. `memo` keeps what the
/// distribution chooses.
pub fn assign(
    alloc: Global,
    shape: &Shape,
    slot: usize,
    dist: &Dx,
    memo: &mut Memo,
    stores: &[(u64, u128)],
) -> Result<Vec<(u64, u128)>, Mem>
    requires variable { slot < length (shape_types shape.now) }
    requires kinded { (k : KindTree) × DistKinded (shape_kinds shape.now) (dx_tree dist.now) k }
    requires memo { IsMemoOf shape.now (dx_tree dist.now) memo.old }
    requires fits { Fits (shape_size shape.now) stores.now }
    ensures memo { OnOk result (IsMemoOf shape.now (dx_tree dist.now) memo.new) }
    ensures assigned { IfOk result (λ m. m.items ≡ assign_all (shape_types shape.now) slot (dx_tree dist.now) [] stores.now) }
    ensures fits { IfOk result (λ m. Fits (shape_size shape.now) m.items) }
{
    let mut reached = Weights::new(alloc);
    for entry in stores {
        if let Some(place) = chosen_in(alloc, shape, dist, memo, entry.0)? {
            let choice = memo.at(place);
            let share = quotient(entry.1, choice.total);
            add_moves(
                shape,
                slot,
                entry.0,
                share,
                choice.items.as_slice(),
                &mut reached,
            )?;
        }
    }
    Ok(reached.settled())
}

/// The stores with their carried copies set.
pub fn copy(
    alloc: Global,
    program: &Program,
    stores: &[(u64, u128)],
) -> Result<Vec<(u64, u128)>, Mem>
    requires checked { IsChecked (program_tree program.now) }
    requires fits { Fits (shape_size program.now.shape) stores.now }
    ensures copied { IfOk result (λ m. m.items ≡ copy_all (program_tree program.now) [] stores.now) }
    ensures fits { IfOk result (λ m. Fits (shape_size program.now.shape) m.items) }
{
    let mut copied = Weights::new(alloc);
    for entry in stores {
        let after = copied_store(program, entry.0);
        copied.add_weight(after, entry.1)?;
    }
    Ok(copied.settled())
}

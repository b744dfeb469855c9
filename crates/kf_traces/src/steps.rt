//! The parts that a state's stores make by what they choose.

ghost use Rattle.std.specs.Prelude.{◌≡◌, ◌^◌, ◌<◌, [], length, map, IfOk, IfSome, OnOk};
ghost use Rattle.std.specs.List.{All};
ghost use Rattle.kf_value.specs.Kinds.{KindTree};
ghost use Rattle.kf_value.specs.Shapes.{shape_size, shape_types};
ghost use Rattle.kf_core.specs.Checked.{DistKinded};
ghost use Rattle.kf_core.specs.Views.{dx_tree};
ghost use Rattle.kf_core.specs.Runs.{tried};
ghost use Rattle.kf_eval.specs.Kinds.{shape_kinds};
ghost use Rattle.kf_eval.specs.Memos.{IsMemoOf};
ghost use Rattle.kf_support.specs.Moves.{store_behind as lead_of};
ghost use Rattle.kf_traces.specs.Laws.{sum_of};
ghost use Rattle.kf_traces.specs.Traced.{split as split_of};
ghost use Rattle.kf_traces.specs.Views.{part_of, PartsBelow};

use crate::choices::chosen_in;
use crate::parts::{Part, add_shares};
use kf_core::Dx;
use kf_eval::Memo;
use kf_frac::quotient;
use kf_value::{Mem, Shape};
use std::alloc::Global;

/// The stores by the values that they leak, each with its share of the weight, which goes to the store behind the value.
///
/// `into` is the place of the variable that takes the value; without one the store stays. `memo` keeps what the
/// distribution chooses.
pub fn split(
    alloc: Global,
    shape: &Shape,
    into: Option<usize>,
    dist: &Dx,
    memo: &mut Memo,
    stores: &[(u64, u128)],
) -> Result<Vec<Part>, Mem>
    requires variable { IfSome into (λ slot. slot < length (shape_types shape.now)) }
    requires kinded { (k : KindTree) × DistKinded (shape_kinds shape.now) (dx_tree dist.now) k }
    requires memo { IsMemoOf shape.now (dx_tree dist.now) memo.old }
    requires below { All (λ e. e.0 < shape_size shape.now) stores.now }
    requires within { sum_of stores.now < 2 ^ 127 }
    ensures memo { OnOk result (IsMemoOf shape.now (dx_tree dist.now) memo.new) }
    ensures below { IfOk result (λ ps. PartsBelow (shape_size shape.now) (map part_of ps.items)) }
    ensures within { IfOk result (λ ps. All (λ p. sum_of p.stores < 2 ^ 127) (map part_of ps.items)) }
    ensures parts { IfOk result (λ ps. map part_of ps.items
        ≡ split_of (lead_of (shape_types shape.now) into) (tried (shape_types shape.now) (dx_tree dist.now)) [] stores.now) }
{
    let mut parts = Vec::new(alloc);
    for entry in stores {
        if let Some(place) = chosen_in(alloc, shape, dist, memo, entry.0)? {
            let choice = memo.at(place);
            let share = quotient(entry.1, choice.total);
            add_shares(
                alloc,
                shape,
                into,
                &mut parts,
                entry.0,
                share,
                choice.items.as_slice(),
            )?;
        }
    }
    Ok(parts)
}

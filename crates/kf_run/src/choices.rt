//! What a distribution chooses in a store, and what its choices take of the store's weight.

ghost use Rattle.std.specs.Prelude.{◌≡◌, ◌<◌, ◌/◌, length, IfOk, IsOk, OnOk};
ghost use Rattle.kf_value.specs.Kinds.{KindTree};
ghost use Rattle.kf_value.specs.Shapes.{shape_size, shape_types};
ghost use Rattle.kf_core.specs.Checked.{DistKinded};
ghost use Rattle.kf_core.specs.Runs.{tried};
ghost use Rattle.kf_core.specs.Views.{dx_tree};
ghost use Rattle.kf_eval.specs.Kinds.{shape_kinds};
ghost use Rattle.kf_eval.specs.Memos.{IsKeptAt, IsMemoOf, kept};

use kf_core::Dx;
use kf_eval::{ChoiceError, Memo};
use kf_frac::quotient;
use kf_value::{Mem, Shape};
use std::alloc::Global;

/// The place of what a distribution chooses in a store where it has no fault.
pub fn chosen_in(
    alloc: Global,
    shape: &Shape,
    dist: &Dx,
    memo: &mut Memo,
    store: u64,
) -> Result<usize, Mem>
    requires store { store < shape_size shape.now }
    requires kinded { (k : KindTree) × DistKinded (shape_kinds shape.now) (dx_tree dist.now) k }
    requires clear { IsOk (tried (shape_types shape.now) (dx_tree dist.now) store) }
    requires memo { IsMemoOf shape.now (dx_tree dist.now) memo.old }
    ensures memo { OnOk result (IsMemoOf shape.now (dx_tree dist.now) memo.new) }
    ensures found { IfOk result (λ choice_at. IsKeptAt shape.now (dx_tree dist.now) store memo.new choice_at) }
    ensures within { IfOk result (λ choice_at. choice_at < length (kept memo.new)) }
{
    match memo.find(alloc, shape, dist, store) {
        Ok(choice_at) => Ok(choice_at),
        Err(error) => match error {
            ChoiceError::Mem => Err(Mem),
            _ => unreachable!(),
        },
    }
}

/// What goes with each unit of the choices' weights, of a store's weight.
///
/// Totals are mostly powers of two, and then no division is needed.
pub fn share_of(weight: u128, total: u128) -> u128
    requires some { 0 < total }
    ensures { result ≡ weight / total }
{
    let twos = total.trailing_zeros();
    if total >> twos == 1 {
        weight >> twos
    } else {
        quotient(weight, total)
    }
}

//! What a distribution chooses in a store.

ghost use Rattle.std.specs.Prelude.{◌≡◌, ◌<◌, Ok, Err, None, length, IfOk, IfSome, OnOk};
ghost use Rattle.kf_value.specs.Kinds.{KindTree};
ghost use Rattle.kf_value.specs.Shapes.{shape_size, shape_types};
ghost use Rattle.kf_core.specs.Checked.{DistKinded};
ghost use Rattle.kf_core.specs.Runs.{Halted, tried};
ghost use Rattle.kf_core.specs.Views.{dx_tree};
ghost use Rattle.kf_eval.specs.Kinds.{shape_kinds};
ghost use Rattle.kf_eval.specs.Memos.{IsKeptAt, IsMemoOf, kept};

use kf_core::Dx;
use kf_eval::{ChoiceError, Memo};
use kf_value::{Mem, Shape};
use std::alloc::Global;

/// The place of what the distribution chooses in a store; none where it has a fault there.
///
/// A cleared program meets no fault. What a memo holds after one isn't told, so from there on nothing is kept.
pub fn chosen_in(
    alloc: Global,
    shape: &Shape,
    dist: &Dx,
    memo: &mut Memo,
    store: u64,
) -> Result<Option<usize>, Mem>
    requires store { store < shape_size shape.now }
    requires kinded { (k : KindTree) × DistKinded (shape_kinds shape.now) (dx_tree dist.now) k }
    requires memo { IsMemoOf shape.now (dx_tree dist.now) memo.old }
    ensures memo { OnOk result (IsMemoOf shape.now (dx_tree dist.now) memo.new) }
    ensures found { IfOk result (λ o. IfSome o (λ place. IsKeptAt shape.now (dx_tree dist.now) store memo.new place)) }
    ensures within { IfOk result (λ o. IfSome o (λ place. place < length (kept memo.new))) }
    ensures fault { result ≡ Ok None → (f : Halted) × (tried (shape_types shape.now) (dx_tree dist.now) store ≡ Err f) }
{
    match memo.find(alloc, shape, dist, store) {
        Ok(place) => Ok(Some(place)),
        Err(error) => match error {
            ChoiceError::Mem => Err(Mem),
            _ => {
                *memo = Memo::new(alloc, shape, dist, 0)?;
                Ok(None)
            }
        },
    }
}

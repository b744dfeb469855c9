ghost use Rattle.std.specs.Prelude.{◌≡◌, All, IfOk};
ghost use Rattle.kf_value.specs.Numbers.{target_size};
ghost use Rattle.kf_value.specs.Views.{items_of};
ghost use Rattle.kf_column.specs.Shapes.{IsBelow};
ghost use Rattle.kf_column.specs.Joint.{mass};
ghost use Rattle.kf_column.specs.Hypers.{IsHyper};
ghost use Rattle.kf_hyper.specs.Views.{inners_of, scale_of, target_of};

use super::Hyper;
use crate::Columns;
use crate::classes::classes_of;
use kf_value::{Mem, Target};
use std::alloc::Global;

/// The hyper-distribution of a joint matrix whose values are those of the target.
///
/// Proportional columns become one inner; its outer is the sum of their weights over the scale.
pub fn abstract_columns(alloc: Global, target: Target, columns: Columns) -> Result<Hyper, Mem>
    requires whole { mass columns.columns ≡ columns.scale }
    requires within { All (IsBelow (target_size (items_of target))) columns.columns }
    ensures hyper { IfOk result (λ h. IsHyper columns.columns (inners_of h)) }
    ensures scale { IfOk result (λ h. scale_of h ≡ columns.scale) }
    ensures target { IfOk result (λ h. target_of h ≡ items_of target) }
{
    let (scale, list) = columns.into_parts();
    let classes = classes_of(alloc, list)?;
    Ok(Hyper {
        target,
        scale,
        classes,
    })
}

ghost use Rattle.std.specs.Prelude.{◌≡◌, ◌≤◌, ◌<◌, ◌^◌, All, IfOk, length, map};
ghost use Rattle.std.proofs.Props.{props};
ghost use Rattle.kf_value.specs.Numbers.{target_size};
ghost use Rattle.kf_value.specs.TypeViews.{item_of};
ghost use Rattle.kf_column.specs.Shapes.{IsShape};
ghost use Rattle.kf_hyper.specs.ClassViews.{inner_of};

use crate::class::Class;
use kf_value::Target;

/// A hyper-distribution: a distribution on the posteriors of a target (Alvim et al. 2020).
///
/// Its inners are the posteriors, as lists of whole weights without common factor, in ascending
/// order of these lists. The outer of an inner is its total divided by the scale.
#[derive(Drop)]
pub struct Hyper {
    pub(crate) target: Target,
    pub(crate) scale: u128,
    pub(crate) classes: Vec<Class>,
    pub ghost shape: { IsShape (target_size (map item_of target.items)) scale (map inner_of classes.items) } by { Prim.hlevel props },
}

mod abstraction;
mod joints;
mod readers;

pub use abstraction::abstract_columns;

ghost use Rattle.std.specs.Prelude.{◌≡◌};
ghost use Rattle.kf_column.specs.Columns.{total as sum};

use crate::Column;

/// An inner, and the sum of the weights of all columns with this posterior.
#[derive(Drop)]
pub struct Class {
    /// The posterior in whole numbers without common factor.
    pub inner: Column,
    /// The sum of the inner's weights, by which each is divided to give a probability.
    pub whole: u128,
    /// The sum of all weights of the class, over the scale of the joint matrix.
    pub total: u128,
    ghost summed: { whole ≡ sum inner },
}

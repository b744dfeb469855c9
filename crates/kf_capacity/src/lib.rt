//! Bayes capacities of channels, and channels put one behind the other, side by side, or one or the other.
#![tactic(auto)]

mod beliefs;
mod capacities;
mod channel_grid;
mod column;
mod divided;
mod error;
mod grid;
mod law;
mod multiples;
mod pair_sums;
mod pairs;
mod places;
mod product;
mod scales;
mod secrets;
mod series;
mod values;
mod visible_choice;
mod weights;

pub use beliefs::capacity_of_hyper;
pub use capacities::capacity;
pub use channel_grid::grid_of;
pub use error::{CascadeFault, ChoiceFault, GridFault, ParallelFault};
pub use grid::Grid;
pub use law::{capacity_laws, composition_laws, grid_laws};
pub use pairs::parallel;
pub use series::cascade;
pub use visible_choice::choice;

/// The greatest number that a grid may hold.
const LIMIT: u128 = i128::MAX as u128;

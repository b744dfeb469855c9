//! Refinement of hypers: whether one leaks no more than another, with the matrix or the gain table that proves it.
#![tactic(auto)]

mod cells;
mod decision;
mod equations;
mod kept;
mod laws;
mod matrix;
mod multipliers;
mod scalings;
mod verdict;

pub use decision::refine;
pub use laws::{one_verdict, refine_laws, verdict_laws};
pub use verdict::{FracRowList, Matrix, RefineError, Verdict};

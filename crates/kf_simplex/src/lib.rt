//! An exact simplex on whole numbers: a solution without negative entries, or multipliers that exclude one.
#![tactic(auto)]

mod building;
mod conversion;
mod laws;
mod lists;
mod outcome;
mod reading;
mod row;
mod rows;
mod solving;
mod system;
mod table;

pub use laws::{
    every_run_ends, no_run_is_long, no_run_returns, one_answer, one_result, systems_agree,
    weak_duality,
};
pub use lists::{FracList, NumberList};
pub use outcome::{Outcome, SimplexError};
pub use row::{Entry, Row};
pub use solving::{solve, solve_sparse};
pub use system::{Equation, EquationList, SparseEquation, SparseSystem, System, cells};

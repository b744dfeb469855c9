//! The support pass: a checked program that meets no fault is cleared, with its scale.
#![tactic(auto)]

mod cleared;
mod faults;
mod laws;
mod moves;
mod passes;
mod steps;
mod support;
mod ways;

pub use cleared::Cleared;
pub use faults::{Halt, RunFault};
pub use moves::{copied_store, moved, store_behind};
pub use support::clear;

//! Columns pushed through a program's outermost statements, the law that merging them commutes with running, and what stands at the end.
#![tactic(auto)]

mod end;
mod erasure;
mod laws;
mod pusher;

pub use end::{about_target, are_columns};
pub use erasure::{alone, erase, sum_of};
pub use laws::merge_law;
pub use pusher::Pusher;

//! Columns of whole weights, the hyper-distribution of a list of columns, and traces with their columns, as definitions and their laws.
#![tactic(auto)]

mod entry;
mod law;

pub use entry::Entry;
pub use law::{hyper_laws, merge_laws, one_hyper, projection_laws, proportional_means};

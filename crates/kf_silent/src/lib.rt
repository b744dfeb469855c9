//! Programs in which a block, or statements anywhere, show nothing: definitions and their laws.
#![tactic(auto)]

mod laws;

pub use laws::{silent_hypers, silent_laws};

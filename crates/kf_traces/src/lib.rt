//! A cleared program run to all its ends: its traces, each with the stores behind it and their weights.
#![tactic(auto)]

mod assigns;
mod choices;
mod columns;
mod laws;
mod parts;
mod states;
mod steps;
mod tables;
mod walks;
mod weights;

pub use laws::traced_laws;
pub use tables::table;

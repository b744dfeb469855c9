//! What refinement and channels promise of every gain: definitions and their laws.
#![tactic(auto)]

mod laws;

pub use laws::{cascade_laws, leakage_laws, refinement_laws, structural_laws};

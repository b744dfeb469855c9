//! Refinement whatever the prior: full sources, in which each initial store is equally likely, and whether one covers another.
#![tactic(auto)]

mod cover;
mod declarations;
mod error;
mod full;
mod laws;
mod literals;

pub use cover::covers;
pub use error::FullError;
pub use full::{full_source, initial_stores};
pub use laws::{full_laws, prior_laws};

//! The type rules: a source becomes a checked program, or its first broken rule is told.
#![tactic(auto)]

mod decls;
mod dists;
mod errors;
mod exprs;
mod items;
mod kinds;
mod laws;
mod limits;
mod names;
mod picks;
mod rows;
mod shapes;
mod sources;
mod stmts;
mod targets;
mod typed;
mod types;
mod variables;

pub use errors::TypeError;
pub use laws::type_laws;
pub use sources::check;

//! The grammar of sources and the parser.
#![tactic(auto)]

mod build;
mod compose;
mod cursor;
mod deep;
mod dists;
mod errors;
mod exprs;
mod kept;
mod laws;
mod operators;
mod parser;
mod sources;
mod stmts;
mod stop;
mod types;

pub use errors::ParseError;
pub use laws::{grammar, operator_tokens, refusals};
pub use parser::parse;

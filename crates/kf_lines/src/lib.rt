//! Which line leaks, wherever it stands: how much is left of what is seen of a program where one statement alone is silent.
#![tactic(auto)]

mod program;
mod site;
mod sites;
mod summaries;
mod summary;
mod text;

pub use program::program_lines;

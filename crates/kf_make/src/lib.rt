//! The text that `make` runs, and that it is a program which is never refused.
#![tactic(auto)]

mod laws;
mod source;
mod unrefused;

pub use laws::made_laws;
pub use source::make_source;
pub use unrefused::made;

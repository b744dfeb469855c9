//! Values of the expressions of checked programs.
#![tactic(auto)]

mod choice;
mod evaluation;
mod fault;
mod memo;
mod outcomes;
mod parts;
mod read_slots;
mod scalar;
mod scalars;
mod sets;
mod sureness;
mod weighted;
mod weights;

pub use choice::{Choice, ChoiceError, Weighted, WeightedList};
pub use evaluation::eval;
pub use fault::EvalError;
pub use memo::Memo;
pub use outcomes::choices;
pub use parts::value_in;
pub use read_slots::dist_reads;
pub use sureness::is_always_sure;

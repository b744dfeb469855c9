//! Laws of the definitions of which other definitions, or the code, say the same once more: statements in the subject's own words.
#![tactic(auto)]

mod laws;
mod tasks;

pub use laws::{channel_products, first_faults, last_counts, operator_choices};
pub use tasks::task_words;

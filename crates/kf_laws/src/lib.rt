//! The theorems above `run` and above the definitions of its answer.
//!
//! No function here does anything of its own: a law of the definitions is a function whose contract is the law, and a law of runs is one call
//! of `run`, with what follows from its contract.
#![tactic(auto)]

mod definitions;
mod runs;
mod silence;

pub use definitions::{
    capacity_bounds_leaks, certificates_accepted, covers_all_priors, exactly_one_answer,
    quiet_leaks_no_more, reasoned_refusals, structural_verdicts, told_answers,
};
pub use runs::{check_what_was_written, run_in_memory, run_over_sure_files};
pub use silence::silent_refines;

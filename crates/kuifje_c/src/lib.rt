//! The program as a call from C: `answer_call` under its name there, and the version.
#![tactic(auto)]

mod run;
mod version;

pub use kf_call::{FileSpans, Lengths, Span};
pub use run::kuifje_run;
pub use version::kuifje_version;

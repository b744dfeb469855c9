//! Leakage reports: how much more is to be gained once a trace is seen.
#![tactic(auto)]

mod law;
mod report;

pub use law::report_laws;
pub use report::{Report, report_of};

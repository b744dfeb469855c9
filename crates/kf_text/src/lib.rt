//! Printed texts: attacks, blames, hypers, tables of traces, channels, capacities, leakage reports, trails, verdicts and marks.
#![tactic(auto)]

mod attack;
mod blame;
mod capacity;
mod channel;
mod entries;
mod hyper;
mod items;
mod made;
mod mark;
mod report;
mod traces;
mod trail;
mod verdict;

pub use attack::{attack_text, reach_text};
pub use blame::blame_text;
pub use capacity::{algebra_text, capacity_text};
pub use channel::channel_text;
pub use hyper::hyper_text;
pub use kf_hyper::CountList;
pub use made::make_text;
pub use mark::mark_text;
pub use report::report_text;
pub use traces::trace_text;
pub use trail::trail_text;
pub use verdict::verdict_text;

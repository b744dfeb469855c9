//! The top call: from words and files to bytes and a status.
#![tactic(auto)]

mod about;
mod attack;
mod capacity;
mod covers;
mod end;
mod full;
mod gain;
mod hyper;
mod leak;
mod lines;
mod quiet;
mod refusal;
mod status;
mod stderr;
mod top;
mod verdict;
mod work;

pub use kf_load::place;
pub use kf_make::make_source;
pub use kf_words::{GainWord, Job, WordsError, read_words};
pub use top::run;

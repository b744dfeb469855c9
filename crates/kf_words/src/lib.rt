//! What a command line asks for: from its words to a job.
#![tactic(auto)]

mod arguments;
mod commands;
mod error;
mod gain_words;
mod job;
mod law;
mod numbers;
mod values;
mod words;

pub use error::WordsError;
pub use gain_words::GainWord;
pub use job::Job;
pub use law::tasks_in_range;
pub use words::read_words;

//! Gain functions: exact prior and posterior vulnerabilities of hypers, and the reading of gain tables.
#![tactic(auto)]

mod actions;
mod error;
mod gain;
mod guesses;
mod law;
mod reader;
mod table;
mod table_law;
mod vulnerability;
mod widths;

pub use actions::action_gain;
pub use error::TableError;
pub use gain::{Gain, GainFault};
pub use law::{average_laws, gain_laws, vulnerability_laws};
pub use reader::read_table;
pub use table::{Action, ActionList, GainEntry, GainEntryList, GainTable};
pub use table_law::table_laws;
pub use vulnerability::{posterior, prior};
pub use widths::guarded;

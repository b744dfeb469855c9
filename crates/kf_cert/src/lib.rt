//! Certificates of refinement: written, read, and checked against two hypers by whoever has them.
#![tactic(auto)]

mod cert;
mod checker;
mod forms;
mod gain_rules;
mod laws;
mod mark;
mod matrix_rules;
mod numerals;
mod places;
mod reader;
mod writer;

pub use cert::{
    Cert, CertAction, CertActionList, CertEntry, CertEntryList, CertError, CertGain, NamedEntry,
    NamedEntryList, NamedMatrix,
};
pub use checker::check_cert;
pub use laws::{cert_laws, mark_laws};
pub use mark::{CheckError, Mark, Rule};
pub use reader::read_cert;
pub use writer::write_cert;

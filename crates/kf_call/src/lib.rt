//! The program over a caller's own bytes: words and files as spans of bytes in memory, and the answer in buffers.
#![tactic(auto)]

mod call;
mod files;
mod guess;
mod line;
mod memory;
mod sink;
mod spans;

pub use call::{Lengths, answer_call};
pub use spans::{FileSpans, Span};

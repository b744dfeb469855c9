//! From files to cleared programs: a file is read, its text is typed, and its program is cleared.
#![tactic(auto)]

mod clear;
mod file;
mod position;
mod refusal;
mod text;

pub use clear::{
    Pair, Texts, cleared_pair, cleared_program, cleared_text, two_programs, two_texts,
};
pub use file::read_source;
pub use position::place;
pub use refusal::{Refusal, Stop};
pub use text::{Text, text_of_bytes, text_of_file, text_with};

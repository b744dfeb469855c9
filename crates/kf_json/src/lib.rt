//! What is looked at in the JSON files that this program reads: keys, lists, texts, whole numbers and names.
#![tactic(auto)]

mod names;
mod parser;
mod texts;
mod values;

pub use names::is_name;
pub use parser::{JsonError, parse};
pub use texts::are_distinct;
pub use values::{has_keys, is_list, is_text, is_the_text, members, text, whole, whole_or_zero};

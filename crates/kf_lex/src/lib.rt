//! The tokens of a source.
#![tactic(auto)]

mod cuts;
mod law;
mod lexer;
mod token;
mod words;

pub use law::{one_reading, one_text, operator_tokens, reserved_operators, spans};
pub use lexer::lex;
pub use token::{LexError, Sign, Tok, Token, Tokens, Word};
pub use words::operator_of;

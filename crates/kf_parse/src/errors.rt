use thiserror::Error;

/// Why tokens are no program. Each place is a byte offset.
#[derive(Clone, Copy, Debug, PartialEq, Eq, Error)]
pub enum ParseError {
    /// The first token after which more than 64 brackets stand open.
    #[error("more than 64 brackets are open after the token at byte {at}")]
    Deep { at: u32 },
    /// The first token with which the tokens read so far begin no program, or the source's length where its end is
    /// missing something.
    #[error("the text up to byte {at} begins a program, and what follows doesn't go on with it")]
    Syntax { at: u32 },
    /// The first expression of more than 1,000 nodes.
    #[error("the expression at byte {at} has more than 1000 nodes")]
    Long { at: u32 },
    /// Want of memory.
    #[error("want of memory")]
    Mem,
}

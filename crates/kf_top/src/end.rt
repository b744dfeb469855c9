//! How a run ends.

use crate::refusal::Refusal;

/// What goes to standard error, as one line.
#[derive(Debug, Drop)]
pub(crate) enum Notice<'a> {
    /// The words ask for nothing that there is.
    Usage,
    /// The words and the files' bytes have no answer.
    Refused(Refusal<'a>),
    /// Standard output took only a front of the answer.
    WriteFailed,
    /// Out of memory.
    Mem,
}

/// The status of a run, and what goes to standard error, if anything does. It is made with no standard error in reach, so no fault
/// of that can change the status.
#[derive(Debug, Drop)]
pub(crate) struct End<'a> {
    pub(crate) status: u8,
    pub(crate) notice: Option<Notice<'a>>,
}

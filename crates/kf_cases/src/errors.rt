use kf_io::Mem;
use std::alloc::{AllocError, AllocFailed};

/// Why a case isn't run to its end.
#[derive(Clone, Copy, Debug, PartialEq, Eq)]
pub enum CaseError {
    /// It isn't in the form of a case.
    Unreadable,
    /// Want of memory.
    Mem,
}

impl From<AllocError> for CaseError {
    fn from(_: AllocError) -> Self {
        CaseError::Mem
    }
}

impl From<Mem> for CaseError {
    fn from(_: Mem) -> Self {
        CaseError::Mem
    }
}

impl<T: Drop> From<AllocFailed<T>> for CaseError {
    fn from(_: AllocFailed<T>) -> Self {
        CaseError::Mem
    }
}

use std::alloc::{AllocError, AllocFailed};

/// Want of memory.
#[derive(Clone, Copy, Debug, PartialEq, Eq)]
pub struct Mem;

impl From<AllocError> for Mem {
    fn from(_: AllocError) -> Self {
        Mem
    }
}

impl<T: Drop> From<AllocFailed<T>> for Mem {
    fn from(_: AllocFailed<T>) -> Self {
        Mem
    }
}

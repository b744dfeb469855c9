use std::alloc::{AllocError, AllocFailed};

/// Memory is refused.
#[derive(Clone, Copy, Debug, PartialEq, Eq)]
pub(crate) struct Refused;

impl From<AllocError> for Refused {
    fn from(_: AllocError) -> Self {
        Refused
    }
}

impl<T: Drop> From<AllocFailed<T>> for Refused {
    fn from(_: AllocFailed<T>) -> Self {
        Refused
    }
}

impl From<kf_io::Mem> for Refused {
    fn from(_: kf_io::Mem) -> Self {
        Refused
    }
}

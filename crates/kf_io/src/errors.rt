use std::alloc::AllocError;

/// A read or a write that gave nothing, and was counted as a fault.
#[derive(Clone, Copy, Debug, PartialEq, Eq)]
pub struct Failed;

/// Want of memory.
#[derive(Clone, Copy, Debug, PartialEq, Eq)]
pub struct Mem;

/// Why a file wasn't read whole.
#[derive(Clone, Copy, Debug, PartialEq, Eq)]
pub enum ReadError {
    /// A read failed.
    Failed,
    /// The file has more than 1,048,576 bytes.
    TooLong,
    /// Want of memory.
    Mem,
}

impl From<AllocError> for Mem {
    fn from(_: AllocError) -> Self {
        Mem
    }
}

impl From<Failed> for ReadError {
    ghost use Rattle.std.specs.Prelude.{◌≡◌};
    ghost use Rattle.kf_io.specs.declared.errors.ReadError.TheVariants as error;

    ghost from_gives = { λ _ e. e ≡ error.Failed };

    fn from(_: Failed) -> Self {
        ReadError::Failed
    }
}

impl From<AllocError> for ReadError {
    ghost use Rattle.std.specs.Prelude.{◌≡◌};
    ghost use Rattle.kf_io.specs.declared.errors.ReadError.TheVariants as error;

    ghost from_gives = { λ _ e. e ≡ error.Mem };

    fn from(_: AllocError) -> Self {
        ReadError::Mem
    }
}

use kf_value::Mem;
use std::alloc::{AllocError, AllocFailed};

/// Why there is no full source.
#[derive(Clone, Copy, Debug, PartialEq, Eq)]
pub enum FullError {
    /// The declared variables have more than 4,096 stores: how many.
    Stores { count: u128 },
    /// Want of memory.
    Mem,
}

impl From<Mem> for FullError {
    ghost use Rattle.std.specs.Prelude.{◌≡◌};
    ghost use Rattle.kf_prior.specs.declared.error.FullError.TheVariants as errors;

    ghost from_gives = { λ _ e. e ≡ errors.Mem };

    fn from(_: Mem) -> Self {
        FullError::Mem
    }
}

impl From<AllocError> for FullError {
    ghost use Rattle.std.specs.Prelude.{◌≡◌};
    ghost use Rattle.kf_prior.specs.declared.error.FullError.TheVariants as errors;

    ghost from_gives = { λ _ e. e ≡ errors.Mem };

    fn from(_: AllocError) -> Self {
        FullError::Mem
    }
}

impl<T: Drop> From<AllocFailed<T>> for FullError {
    ghost use Rattle.std.specs.Prelude.{◌≡◌};
    ghost use Rattle.kf_prior.specs.declared.error.FullError.TheVariants as errors;

    ghost from_gives = { λ _ e. e ≡ errors.Mem };

    fn from(_: AllocFailed<T>) -> Self {
        FullError::Mem
    }
}

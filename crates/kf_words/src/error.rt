use kf_value::Mem;
use std::alloc::AllocError;

/// Why the words have no job.
#[derive(Clone, Copy, Debug, PartialEq, Eq)]
pub enum WordsError {
    /// The words ask for nothing that there is.
    Usage,
    /// Want of memory.
    Mem,
}

impl From<AllocError> for WordsError {
    ghost use Rattle.std.specs.Prelude.{◌≡◌};
    ghost use Rattle.kf_words.specs.declared.error.WordsError.TheVariants as errors;

    ghost from_gives = { λ _ e. e ≡ errors.Mem };

    fn from(_: AllocError) -> Self {
        WordsError::Mem
    }
}

impl From<Mem> for WordsError {
    ghost use Rattle.std.specs.Prelude.{◌≡◌};
    ghost use Rattle.kf_words.specs.declared.error.WordsError.TheVariants as errors;

    ghost from_gives = { λ _ e. e ≡ errors.Mem };

    fn from(_: Mem) -> Self {
        WordsError::Mem
    }
}

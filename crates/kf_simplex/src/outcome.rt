use crate::{FracList, NumberList};
use std::alloc::AllocError;

/// What a system has: a solution, or multipliers that exclude one.
#[derive(Drop)]
pub enum Outcome {
    /// One fraction for each unknown, none below 0, which solve every equation.
    Solution(FracList),
    /// One whole number for each equation. The equations times these give every unknown a sum of
    /// at most 0, and the right sides a sum above 0.
    Multipliers(NumberList),
}

/// Why a system was not decided.
#[derive(Clone, Copy, Debug, PartialEq, Eq)]
pub enum SimplexError {
    /// After so many pivots a number of the tableau passes 2^62 in absolute value.
    Wide { pivots: u32 },
    /// The run needs more pivots than were given.
    Budget,
    /// Want of memory.
    Mem,
}

impl From<AllocError> for SimplexError {
    ghost use Rattle.std.specs.Prelude.{◌≡◌};
    ghost use Rattle.kf_simplex.specs.declared.outcome.SimplexError.TheVariants as errors;

    ghost from_gives = { λ _ e. e ≡ errors.Mem };

    fn from(_: AllocError) -> Self {
        SimplexError::Mem
    }
}

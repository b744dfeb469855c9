ghost use Rattle.std.specs.Prelude.{◌≡◌};
ghost use Rattle.kf_support.specs.Answers.{halt_of};

use kf_eval::ChoiceError;
use kf_value::Mem;
use std::alloc::{AllocError, AllocFailed};

/// Why a program can't be run from one of its stores.
#[derive(Clone, Copy, Debug, PartialEq, Eq)]
pub enum RunFault {
    /// A divisor is 0.
    DivZero,
    /// The result of an operator is no i64.
    ArithWide,
    /// A value isn't of its variable's type.
    OutOfRange,
    /// A distribution has no value, or all its weights are 0.
    NoWeight,
    /// A weight is below 0.
    NegativeWeight,
    /// A uniform range has more than 65,536 numbers.
    RangeLong,
    /// A loop's guard can still be true after as many turns as it may have.
    LoopBound,
}

/// Why a program isn't cleared.
#[derive(Clone, Copy, Debug, PartialEq, Eq)]
pub enum Halt {
    /// The first fault, and the first byte of the distribution at which it arises.
    Fault { kind: RunFault, at: u32 },
    /// The scale passes 2^127 - 1.
    Scale,
    /// Want of memory.
    Mem,
}

/// A fault of choices, as one of the distribution at this place.
pub fn fault_of(error: ChoiceError, at: u32) -> Halt
    ensures { result ≡ halt_of error at }
{
    let kind = match error {
        ChoiceError::DivZero => RunFault::DivZero,
        ChoiceError::ArithWide => RunFault::ArithWide,
        ChoiceError::NoWeight => RunFault::NoWeight,
        ChoiceError::NegativeWeight => RunFault::NegativeWeight,
        ChoiceError::RangeLong => RunFault::RangeLong,
        ChoiceError::Mem => return Halt::Mem,
    };
    Halt::Fault { kind, at }
}

impl From<Mem> for Halt {
    ghost use Rattle.std.specs.Prelude.{◌≡◌};
    ghost use Rattle.kf_support.specs.declared.faults.Halt.TheVariants as halt;

    ghost from_gives = { λ _ e. e ≡ halt.Mem };

    fn from(_: Mem) -> Self {
        Halt::Mem
    }
}

impl From<AllocError> for Halt {
    ghost use Rattle.std.specs.Prelude.{◌≡◌};
    ghost use Rattle.kf_support.specs.declared.faults.Halt.TheVariants as halt;

    ghost from_gives = { λ _ e. e ≡ halt.Mem };

    fn from(_: AllocError) -> Self {
        Halt::Mem
    }
}

impl<T: Drop> From<AllocFailed<T>> for Halt {
    ghost use Rattle.std.specs.Prelude.{◌≡◌};
    ghost use Rattle.kf_support.specs.declared.faults.Halt.TheVariants as halt;

    ghost from_gives = { λ _ e. e ≡ halt.Mem };

    fn from(_: AllocFailed<T>) -> Self {
        Halt::Mem
    }
}

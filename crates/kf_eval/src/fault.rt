use kf_ops::OpFault;
use kf_value::Mem;
use std::alloc::{AllocError, AllocFailed};

/// Why an expression has no value.
#[derive(Clone, Copy, Debug, PartialEq, Eq)]
pub enum EvalError {
    /// A divisor is 0.
    DivZero,
    /// The result of an operator is no i64.
    ArithWide,
    /// Want of memory.
    Mem,
}

impl From<OpFault> for EvalError {
    ghost use Rattle.std.specs.Prelude.{◌≡◌};
    ghost use Rattle.kf_eval.specs.Answers.{error_of};

    ghost from_gives = { λ fault e. e ≡ error_of fault };

    fn from(fault: OpFault) -> Self {
        match fault {
            OpFault::DivZero => EvalError::DivZero,
            OpFault::ArithWide => EvalError::ArithWide,
            OpFault::Mem => EvalError::Mem,
        }
    }
}

impl From<Mem> for EvalError {
    ghost use Rattle.std.specs.Prelude.{◌≡◌};
    ghost use Rattle.kf_eval.specs.declared.fault.EvalError.TheVariants as error;

    ghost from_gives = { λ _ e. e ≡ error.Mem };

    fn from(_: Mem) -> Self {
        EvalError::Mem
    }
}

impl From<AllocError> for EvalError {
    ghost use Rattle.std.specs.Prelude.{◌≡◌};
    ghost use Rattle.kf_eval.specs.declared.fault.EvalError.TheVariants as error;

    ghost from_gives = { λ _ e. e ≡ error.Mem };

    fn from(_: AllocError) -> Self {
        EvalError::Mem
    }
}

impl<T: Drop> From<AllocFailed<T>> for EvalError {
    ghost use Rattle.std.specs.Prelude.{◌≡◌};
    ghost use Rattle.kf_eval.specs.declared.fault.EvalError.TheVariants as error;

    ghost from_gives = { λ _ e. e ≡ error.Mem };

    fn from(_: AllocFailed<T>) -> Self {
        EvalError::Mem
    }
}

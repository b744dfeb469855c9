use kf_value::Mem;
use std::alloc::{AllocError, AllocFailed};

/// Why an operator gave no value.
#[derive(Clone, Copy, Debug, PartialEq, Eq)]
pub enum OpFault {
    /// The divisor is 0.
    DivZero,
    /// The result is no i64.
    ArithWide,
    /// Want of memory.
    Mem,
}

impl From<Mem> for OpFault {
    ghost use Rattle.std.specs.Prelude.{◌≡◌};
    ghost use Rattle.kf_ops.specs.declared.fault.OpFault.TheVariants as fault;

    ghost from_gives = { λ _ e. e ≡ fault.Mem };

    fn from(_: Mem) -> Self {
        OpFault::Mem
    }
}

impl From<AllocError> for OpFault {
    ghost use Rattle.std.specs.Prelude.{◌≡◌};
    ghost use Rattle.kf_ops.specs.declared.fault.OpFault.TheVariants as fault;

    ghost from_gives = { λ _ e. e ≡ fault.Mem };

    fn from(_: AllocError) -> Self {
        OpFault::Mem
    }
}

impl<T: Drop> From<AllocFailed<T>> for OpFault {
    ghost use Rattle.std.specs.Prelude.{◌≡◌};
    ghost use Rattle.kf_ops.specs.declared.fault.OpFault.TheVariants as fault;

    ghost from_gives = { λ _ e. e ≡ fault.Mem };

    fn from(_: AllocFailed<T>) -> Self {
        OpFault::Mem
    }
}

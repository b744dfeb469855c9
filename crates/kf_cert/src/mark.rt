ghost use Rattle.std.specs.Prelude.{◌≡◌};

use kf_value::Mem;
use std::alloc::AllocError;

/// The first rule that a certificate breaks.
#[derive(Clone, Copy, Debug, PartialEq, Eq)]
pub enum Rule {
    /// The matrix has not one row for each inner of the first hyper and one entry for each of the second.
    Shape,
    /// An entry is below 0 or above 1.
    Range,
    /// A row doesn't sum to 1.
    Sum,
    /// Some joint weight of the second hyper isn't what the matrix makes of the first's.
    Cell,
    /// A text is not that of a target value, or an action names a value twice.
    Value,
    /// The first hyper's posterior vulnerability isn't below the second's.
    Order,
}

/// What a check says of a certificate.
#[derive(Clone, Copy, Debug, PartialEq, Eq)]
pub enum Mark {
    /// It proves its verdict.
    Accepted,
    /// It doesn't.
    Rejected(Rule),
}

/// Why a certificate gets no mark.
#[derive(Clone, Copy, Debug, PartialEq, Eq)]
pub enum CheckError {
    /// A scale times the certificate's common denominator, or times its gains' width, passes 2^127 - 1.
    Wide,
    /// Want of memory.
    Mem,
}

impl From<Mem> for CheckError {
    ghost use Rattle.kf_cert.specs.declared.mark.CheckError.TheVariants as errors;

    ghost from_gives = { λ _ e. e ≡ errors.Mem };

    fn from(_: Mem) -> Self {
        CheckError::Mem
    }
}

impl From<AllocError> for CheckError {
    ghost use Rattle.kf_cert.specs.declared.mark.CheckError.TheVariants as errors;

    ghost from_gives = { λ _ e. e ≡ errors.Mem };

    fn from(_: AllocError) -> Self {
        CheckError::Mem
    }
}

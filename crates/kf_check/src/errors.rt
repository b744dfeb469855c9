ghost use Rattle.std.specs.Prelude.{◌≡◌, Ok, Err, IfOk, IfErr};

use kf_value::Mem;
use std::alloc::{AllocError, AllocFailed};
use thiserror::Error;

/// The first broken type rule of a source. Each place is a byte offset.
#[derive(Clone, Copy, Debug, PartialEq, Eq, Error)]
pub enum TypeError {
    /// The source declares no variable.
    #[error("no variable is declared")]
    NoVariable { at: u32 },
    /// The name is declared already, or the item stands in the target already.
    #[error("this name stands here twice")]
    Twice { at: u32 },
    /// No variable of this name is declared before.
    #[error("no variable has this name")]
    Unknown { at: u32 },
    /// The value is of another kind than is asked for.
    #[error("this value is of the wrong kind")]
    Clash { at: u32 },
    /// The range's lower bound is above its upper one, or a bound is more than 1,000,000 from 0.
    #[error("this range is no range")]
    BadRange { at: u32 },
    /// The type has more than 65,536 values, or as the base of a set more than 16.
    #[error("this type has too many values")]
    TypeTooLarge { at: u32 },
    /// There are more than 32 variables, carried copies among them.
    #[error("there are too many variables")]
    TooManyVariables { at: u32 },
    /// There are more than 2^63 stores.
    #[error("there are too many stores")]
    StoreTooWide { at: u32 },
    /// The probability is above 1, or its denominator is 0.
    #[error("this is no probability")]
    BadFlip { at: u32 },
    /// Want of memory.
    #[error("want of memory")]
    Mem,
}

impl From<Mem> for TypeError {
    ghost use Rattle.std.specs.Prelude.{◌≡◌};
    ghost use Rattle.kf_check.specs.declared.errors.TypeError.TheVariants as broken;

    ghost from_gives = { λ _ e. e ≡ broken.Mem };

    fn from(_: Mem) -> Self {
        TypeError::Mem
    }
}

impl From<AllocError> for TypeError {
    ghost use Rattle.std.specs.Prelude.{◌≡◌};
    ghost use Rattle.kf_check.specs.declared.errors.TypeError.TheVariants as broken;

    ghost from_gives = { λ _ e. e ≡ broken.Mem };

    fn from(_: AllocError) -> Self {
        TypeError::Mem
    }
}

impl<T: Drop> From<AllocFailed<T>> for TypeError {
    ghost use Rattle.std.specs.Prelude.{◌≡◌};
    ghost use Rattle.kf_check.specs.declared.errors.TypeError.TheVariants as broken;

    ghost from_gives = { λ _ e. e ≡ broken.Mem };

    fn from(_: AllocFailed<T>) -> Self {
        TypeError::Mem
    }
}

/// What was found, beside what is held meanwhile, which is dropped where nothing was found. The call keeps proofs short: at a
/// `?` each form of a value that is held is a case of its own.
pub fn beside<A, B: Drop, E>(found: Result<A, E>, held: B) -> Result<(A, B), E>
    ensures ok { IfOk result (λ both. (found ≡ Ok both.0) × (both.1 ≡ held)) }
    ensures err { IfErr result (λ e. found ≡ Err e) }
{
    match found {
        Ok(value) => Ok((value, held)),
        Err(e) => {
            drop(held);
            Err(e)
        }
    }
}

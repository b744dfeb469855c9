ghost use Rattle.std.specs.Prelude.{◌≡◌, Ok, Err, IfOk, IfErr};

use std::alloc::{AllocError, AllocFailed};

/// Why reading stopped, at the first token that is left.
#[derive(Clone, Copy, Debug, PartialEq, Eq)]
pub(crate) enum Stop {
    /// Nothing goes on with that token, or with the end.
    Syntax,
    /// Brackets nest too deep.
    Deep,
    /// Want of memory.
    Mem,
}

/// What was read before, with what was read then.
pub(crate) fn both<A: Drop, B: Drop>(a: A, b: Result<B, Stop>) -> Result<(A, B), Stop>
    ensures read { IfOk result (λ p. (p.0 ≡ a) × (b ≡ Ok p.1)) }
    ensures stopped { IfErr result (λ e. b ≡ Err e) }
{
    let b = b?;
    Ok((a, b))
}

impl From<AllocError> for Stop {
    ghost use Rattle.std.specs.Prelude.{◌≡◌};
    ghost use Rattle.kf_parse.specs.declared.stop.Stop.TheVariants as stop;

    ghost from_gives = { λ _ e. e ≡ stop.Mem };

    fn from(_: AllocError) -> Stop {
        Stop::Mem
    }
}

impl<T: Drop> From<AllocFailed<T>> for Stop {
    ghost use Rattle.std.specs.Prelude.{◌≡◌};
    ghost use Rattle.kf_parse.specs.declared.stop.Stop.TheVariants as stop;

    ghost from_gives = { λ _ e. e ≡ stop.Mem };

    fn from(_: AllocFailed<T>) -> Stop {
        Stop::Mem
    }
}

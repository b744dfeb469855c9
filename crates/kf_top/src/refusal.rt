ghost use Rattle.std.specs.Prelude.{◌≡◌, Err, IfErr, IfOk, Ok};
ghost use Rattle.kf_top.specs.Stops.{lifted};

use kf_cert::CertError;
use kf_gain::TableError;
use kf_load::{Refusal as LoadRefusal, Stop as LoadStop};
use kf_value::Mem;
use std::alloc::{AllocError, AllocFailed};

/// Why the words and the files' bytes have no answer.
#[derive(Debug, Drop)]
pub(crate) enum Refusal<'a> {
    /// A file holds no program that can be run.
    Load(LoadRefusal<'a>),
    /// Some item of the target isn't read before the statements.
    NotInitial,
    /// The file is no gain table: the first rule that it breaks, which isn't want of memory.
    BadTable(&'a str, TableError),
    /// The scale times the gain's width passes 2^127 - 1.
    WideGain,
    /// Two programs have different targets.
    OtherTarget,
    /// The tableau of a refinement has so many cells, or as many as 2^127 - 1 or more.
    ManyCells(u128),
    /// After so many pivots a number of the tableau passes 2^62.
    WideTableau(u32),
    /// The run of a refinement needs more than 20,000 pivots.
    ManyPivots,
    /// The file is no certificate: the first rule that it breaks, which isn't want of memory.
    BadCert(&'a str, CertError),
    /// A scale times the certificate's denominator, or its width, passes 2^127 - 1.
    WideCert,
    /// Two channels have different secrets.
    OtherRows,
    /// What one channel shows is no secret of the next.
    NoFit,
    /// Two channels in parallel have so many cells, or as many as 2^127 - 1 or more.
    ManyChannelCells(u128),
    /// The denominator of a channel, or its capacity over that, passes 2^127 - 1.
    WideChannel,
    /// The declared variables of the file's program have so many stores, which are more than 4,096.
    ManyStores(&'a str, u128),
}

/// Why there is no answer.
#[derive(Debug, Drop)]
pub(crate) enum Stop<'a> {
    /// The words and the files' bytes have none.
    Refused(Refusal<'a>),
    /// Out of memory.
    Mem,
}

/// Why there is no program, as why there is no answer.
pub(crate) fn lift(stop: LoadStop<'_>) -> Stop<'_>
    ensures { result ≡ lifted stop.entry }
{
    match stop {
        LoadStop::Refused(refusal) => Stop::Refused(Refusal::Load(refusal)),
        LoadStop::Mem => Stop::Mem,
    }
}

/// What was found, beside what is held meanwhile, which is dropped where nothing was found. The call keeps proofs short: at a
/// `?` each form of a value that is held is a case of its own.
pub(crate) fn beside<'a, A, B: Drop>(
    found: Result<A, Stop<'a>>,
    held: B,
) -> Result<(A, B), Stop<'a>>
    ensures ok { IfOk result (λ both. (found.entry ≡ Ok both.0) × (both.1 ≡ held)) }
    ensures err { IfErr result (λ stop. found.entry ≡ Err stop) }
{
    match found {
        Ok(value) => Ok((value, held)),
        Err(stop) => {
            drop(held);
            Err(stop)
        }
    }
}

impl From<AllocError> for Stop<'_> {
    ghost use Rattle.std.specs.Prelude.{◌≡◌};
    ghost use Rattle.kf_top.specs.declared.refusal.Stop.TheVariants as stop;

    ghost from_gives = { λ _ e. e ≡ stop.Mem };

    fn from(_: AllocError) -> Self {
        Stop::Mem
    }
}

impl From<Mem> for Stop<'_> {
    ghost use Rattle.std.specs.Prelude.{◌≡◌};
    ghost use Rattle.kf_top.specs.declared.refusal.Stop.TheVariants as stop;

    ghost from_gives = { λ _ e. e ≡ stop.Mem };

    fn from(_: Mem) -> Self {
        Stop::Mem
    }
}

impl<T: Drop> From<AllocFailed<T>> for Stop<'_> {
    ghost use Rattle.std.specs.Prelude.{◌≡◌};
    ghost use Rattle.kf_top.specs.declared.refusal.Stop.TheVariants as stop;

    ghost from_gives = { λ _ e. e ≡ stop.Mem };

    fn from(_: AllocFailed<T>) -> Self {
        Stop::Mem
    }
}

/// What goes to standard output, and whether the answer is yes.
#[derive(Drop)]
pub(crate) struct Done {
    pub(crate) yes: bool,
    pub(crate) bytes: Vec<u8>,
}

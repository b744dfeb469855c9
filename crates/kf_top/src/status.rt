//! The status of each refusal.

ghost use Rattle.std.specs.Prelude.{◌≡◌, ◌≤◌};
ghost use Rattle.kf_load.specs.Stops.{refused as load_refused};
ghost use Rattle.kf_top.specs.Stops.{refused};

use crate::refusal::Refusal;
use kf_load::Refusal as LoadRefusal;

// The status where a file holds no program that can be run.
fn unloaded_status(refusal: &LoadRefusal<'_>) -> u8
    ensures status { result ≡ (load_refused refusal.now).status }
    ensures bound { result ≤ 13 }
{
    match refusal {
        LoadRefusal::ReadFailed(_) => 3,
        LoadRefusal::TooLong(_) => 11,
        LoadRefusal::BadText(_, _, _, _) => 5,
        LoadRefusal::BadRun(_, _, _, _) => 6,
        LoadRefusal::WideScale(_) => 7,
        LoadRefusal::FewStatements(_, _) => 13,
    }
}

/// The status where there is no answer.
pub(crate) fn status_of(refusal: &Refusal<'_>) -> u8
    ensures status { result ≡ (refused refusal.now).status }
    ensures bound { result ≤ 13 }
{
    match refusal {
        Refusal::Load(refusal) => unloaded_status(refusal),
        Refusal::NotInitial | Refusal::OtherTarget | Refusal::OtherRows | Refusal::NoFit => 10,
        Refusal::BadTable(_, _) | Refusal::BadCert(_, _) => 9,
        Refusal::WideGain | Refusal::WideTableau(_) | Refusal::WideCert | Refusal::WideChannel => 7,
        Refusal::ManyCells(_)
        | Refusal::ManyPivots
        | Refusal::ManyChannelCells(_)
        | Refusal::ManyStores(_, _) => 8,
    }
}

ghost use Rattle.std.specs.Prelude.{◌≡◌, ◌≤◌, ◌∷◌, [], vec_len, IfOk};
ghost use Rattle.kf_load.specs.Stops.{Counts, FileAnswers};
ghost use Rattle.kf_load.specs.Steps.{Gives};
ghost use Rattle.kf_load.specs.Texts.{source_of};
ghost use Rattle.kf_load.specs.Views.{bytes_in};

use crate::refusal::{Refusal, Stop};
use kf_io::{Files, ReadError, read_whole};
use std::alloc::Global;

/// The bytes of a file, of which there may be 1,048,576 at most.
pub fn read_source<'a, F: Files>(
    alloc: Global,
    files: &mut F,
    name: &'a str,
) -> Result<Vec<u8>, Stop<'a>>
    ensures answer { FileAnswers (F.contents files.old) (F.faults files.old) (F.faults files.new) name.now bytes_in result
        (λ file. Gives (source_of file)) }
    ensures counts { Counts (name.now ∷ []) (F.faults files.old) (F.faults files.new) result }
    ensures unchanged { F.contents files.new ≡ F.contents files.old }
    ensures short { IfOk result (λ bytes. vec_len bytes ≤ 1048576) }
{
    match read_whole(alloc, files, name) {
        Ok(bytes) => Ok(bytes),
        Err(ReadError::Failed) => Err(Stop::Refused(Refusal::ReadFailed(name))),
        Err(ReadError::TooLong) => Err(Stop::Refused(Refusal::TooLong(name))),
        Err(ReadError::Mem) => Err(Stop::Mem),
    }
}

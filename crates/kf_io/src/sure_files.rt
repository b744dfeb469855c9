ghost use Rattle.std.specs.Prelude.{◌≡◌, ◌<◌, ◌≤◌, List, ℕ, Some, length, IfOk, IsOk};
ghost use Rattle.kf_io.specs.Entries.{bytes_of};
ghost use Rattle.kf_io.specs.Reads.{Gives};

use crate::give::give;
use crate::mem_files::index_of;
use crate::{Failed, FileList, Files};
use std::marker::Model;

/// Files in memory that never fail. A name that isn't held is an empty file.
#[derive(Drop)]
pub struct SureFiles {
    files: FileList,
    piece: usize,
}

impl Model for SureFiles {
    ghost use Rattle.std.specs.Prelude.{◌<◌};
    ghost use Rattle.kf_io.specs.Entries.{SureState};

    ghost Value = { SureState };

    ghost view = { λ s. record { files = s.files; piece = s.piece } };

    ghost invariant = { λ s. 0 < s.piece };
}

impl SureFiles {
    /// A read gives at most `piece` bytes.
    pub fn new(files: FileList, piece: usize) -> Self
        requires { 0 < piece }
        ensures made { result ≡ record { files = files; piece = piece } }
        ensures told { ⟦<SureFiles as Files>⟧.contents result ≡ Some (bytes_of files) }
        ensures counts { (name : List ℕ) → ⟦<SureFiles as Files>⟧.faults result name ≡ 0 }
    {
        SureFiles { files, piece }
    }
}

impl Files for SureFiles {
    ghost contents = { λ s. Some (bytes_of s.files) };

    ghost faults = { λ _ _. 0 };

    fn read(&mut self, name: &str, at: u64, buf: &mut [u8]) -> Result<usize, Failed>
        ensures bound { IfOk result (λ k. k ≤ length buf.new) }
        ensures given { IfOk result (λ k. Gives (bytes_of self.old.files name.now) at k buf.new) }
        ensures piece { IfOk result (λ k. k ≤ self.old.piece) }
        ensures never_fails { IsOk result }
        ensures kept { self.new ≡ self.old }
    {
        match index_of(self.files.as_slice(), name) {
            Some(place) => {
                let file = &self.files.as_slice()[place];
                Ok(give(file.bytes.as_slice(), at, self.piece, buf))
            }
            None => Ok(0),
        }
    }
}

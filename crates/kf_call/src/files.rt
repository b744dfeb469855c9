ghost use Rattle.std.specs.Prelude.{◌≡◌, ◌≤◌, ℕ, List, Some, IfOk, OnErr, OnOk, length};
ghost use Rattle.kf_io.specs.Counts.{CountsFaults};
ghost use Rattle.kf_io.specs.Entries.{faults_of};
ghost use Rattle.kf_io.specs.Reads.{Gives};
ghost use Rattle.kf_call.specs.Contents.{contents_of};

use crate::guess::Guess;
use crate::memory::Refused;
use kf_io::{CallList, Failed, FileList, Files, MemFiles};
use std::alloc::Global;
use std::marker::Model;

/// The most bytes that one read gives.
const PIECE: usize = 65536;

/// The caller's files. A read of a name that none of them has fails, so what such a file holds is never looked at.
#[derive(Drop)]
pub(crate) struct CallFiles {
    files: MemFiles,
    missing: Guess,
}

impl Model for CallFiles {
    ghost use Rattle.kf_call.specs.Contents.{FilesState};

    ghost Value = { FilesState };

    ghost view = { λ s. record { files = s.files; missing = s.missing.bytes } };
}

impl CallFiles {
    pub(crate) fn new(alloc: Global, files: FileList) -> Result<Self, Refused>
        ghost missing: { List ℕ }
        ensures told { IfOk result (λ made. ⟦<CallFiles as Files>⟧.contents made ≡ Some (contents_of files missing)) }
        ensures counts { IfOk result (λ made. (name : List ℕ) → ⟦<CallFiles as Files>⟧.faults made name ≡ 0) }
    {
        let files = MemFiles::new(alloc, files, PIECE, CallList::new(Vec::new(alloc)))?;
        Ok(CallFiles {
            files,
            missing: Guess::new(),
        })
    }
}

impl Files for CallFiles {
    ghost contents = { λ s. Some (contents_of s.files.files s.missing) };

    ghost faults = { λ s. faults_of s.files };

    fn read(&mut self, name: &str, at: u64, buf: &mut [u8]) -> Result<usize, Failed>
        ensures bound { IfOk result (λ k. k ≤ length buf.new) }
        ensures given { IfOk result (λ k. Gives (contents_of self.old.files.files self.old.missing name.now) at k buf.new) }
        ensures kept { (self.new.files.files ≡ self.old.files.files) × (self.new.missing ≡ self.old.missing) }
        ensures cause { CountsFaults name.now (faults_of self.old.files) (faults_of self.new.files) result }
    {
        self.files.read(name, at, buf)
    }
}

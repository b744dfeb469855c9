ghost use Rattle.std.specs.Prelude.{◌≡◌, ◌<◌, ◌≤◌, ◌↔◌, List, ℕ, Some, position, length, IfOk, OnOk, OnErr, IsErr};
ghost use Rattle.kf_io.specs.Entries.{has_name, bytes_of, faults_of, fresh_files, ReadFails, RaisesOne};
ghost use Rattle.kf_io.specs.Counts.{CountsFaults, raised};
ghost use Rattle.kf_io.specs.Reads.{Gives};

use crate::give::give;
use crate::{CallList, Failed, FileEntry, FileList, Files, Mem};
use std::alloc::Global;
use std::marker::Model;

/// Files in memory whose reads fail by their number. Calls are numbered from 0.
#[derive(Drop)]
pub struct MemFiles {
    files: FileList,
    piece: usize,
    fail: CallList,
    calls: u64,
    counts: Vec<u64>,
    other: u64,
}

impl Model for MemFiles {
    ghost use Rattle.std.specs.Prelude.{◌≡◌, ◌<◌, length, vec_len};
    ghost use Rattle.kf_io.specs.Entries.{FilesState};

    ghost Value = { FilesState };

    ghost view = { λ s. record {
      files = s.files;
      piece = s.piece;
      fail = s.fail;
      calls = s.calls;
      counts = s.counts.items;
      other = s.other;
    } };

    ghost invariant = { λ s. (0 < s.piece) × (vec_len s.counts ≡ length s.files) };
}

impl MemFiles {
    /// A read gives at most `piece` bytes. It fails where its number stands in `fail` or no file has the
    /// name, which raises the count of that name alone; the names that no file has share one count.
    pub fn new(alloc: Global, files: FileList, piece: usize, fail: CallList) -> Result<Self, Mem>
        requires { 0 < piece }
        ensures made { IfOk result (λ made. made ≡ fresh_files files piece fail) }
        ensures told { IfOk result (λ made.
            ⟦<MemFiles as Files>⟧.contents made ≡ Some (bytes_of files)) }
        ensures counts { IfOk result (λ made.
            (name : List ℕ) → ⟦<MemFiles as Files>⟧.faults made name ≡ 0) }
    {
        let counts = vec![in alloc; 0u64; files.as_slice().len()]?;
        Ok(MemFiles {
            files,
            piece,
            fail,
            calls: 0,
            counts,
            other: 0,
        })
    }
}

// Where the first file of this name stands.
pub(crate) fn index_of(files: &[FileEntry], name: &str) -> Option<usize>
    ensures { result ≡ position (has_name name.now) files.now }
{
    files.iter().position(|file| file.name.as_str() == name)
}

impl Files for MemFiles {
    ghost contents = { λ s. Some (bytes_of s.files) };

    ghost faults = { faults_of };

    fn read(&mut self, name: &str, at: u64, buf: &mut [u8]) -> Result<usize, Failed>
        ensures bound { IfOk result (λ k. k ≤ length buf.new) }
        ensures given { IfOk result (λ k. Gives (bytes_of self.old.files name.now) at k buf.new) }
        ensures piece { IfOk result (λ k. k ≤ self.old.piece) }
        ensures fails { IsErr result ↔ ReadFails self.old name.now }
        ensures after_ok { OnOk result
            (self.new ≡ record self.old { calls = raised self.old.calls }) }
        ensures after_fault { OnErr result (RaisesOne self.old self.new name.now) }
        ensures cause { CountsFaults name.now (faults_of self.old) (faults_of self.new) result }
    {
        let call = self.calls;
        self.calls = call.saturating_add(1);
        match index_of(self.files.as_slice(), name) {
            Some(place) if !self.fail.as_slice().contains(&call) => {
                let file = &self.files.as_slice()[place];
                Ok(give(file.bytes.as_slice(), at, self.piece, buf))
            }
            Some(place) => {
                let count = self.counts[place].saturating_add(1);
                self.counts[place] = count;
                Err(Failed)
            }
            None => {
                self.other = self.other.saturating_add(1);
                Err(Failed)
            }
        }
    }
}

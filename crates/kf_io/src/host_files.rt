ghost use Rattle.std.specs.Prelude.{◌≡◌, ◌≤◌, None, length, IfOk};

use crate::{Failed, Files};
use std::io::{self, Read, Seek, SeekFrom};
use std::marker::Model;
use std::{fs, rt};

/// The files of the system.
///
/// The file that was read last stays open: a read of the same name at the place where it stands
/// goes on from there without seeking, so a pipe can be read too. Another name or place opens anew.
///
/// Clauses see it as its count of faults, which is that of every name.
#[derive(Drop)]
pub struct HostFiles<'a, R: rt::Files + AllocGlobal> {
    runtime: &'a R,
    last: Option<Opened<R::File>>,
    faults: u64,
}

// An open file and the place where its next read begins.
#[derive(Drop)]
struct Opened<F> {
    name: String,
    file: F,
    place: u64,
}

impl<'a, R: rt::Files + AllocGlobal> Model for HostFiles<'a, R> {
    ghost use Rattle.std.specs.Prelude.{ℕ};

    ghost Value = { ℕ };

    ghost view = { λ s. s.faults };
}

impl<'a, R: rt::Files + AllocGlobal> HostFiles<'a, R> {
    /// No file is open yet, and none has failed.
    pub fn new(runtime: &'a R) -> Self
        ensures { result ≡ 0 }
    {
        HostFiles {
            runtime,
            last: None,
            faults: 0,
        }
    }

    // Goes on where the last read ended, or else opens the file anew.
    fn read_on(&mut self, name: &str, at: u64, buf: &mut [u8]) -> io::Result<usize>
        ensures bound { IfOk result (λ k. k ≤ length buf.new) }
        ensures faults { self.new ≡ self.old }
    {
        match self.last.take() {
            Some(mut last) if last.name.as_str() == name && last.place == at => {
                let count = last.file.read(buf)?;
                last.place = at.saturating_add(count as u64);
                self.last = Some(last);
                Ok(count)
            }
            _ => self.read_anew(name, at, buf),
        }
    }

    // Opens the file, and keeps it open if there is memory for its name.
    fn read_anew(&mut self, name: &str, at: u64, buf: &mut [u8]) -> io::Result<usize>
        ensures bound { IfOk result (λ k. k ≤ length buf.new) }
        ensures faults { self.new ≡ self.old }
    {
        let mut file = fs::open(self.runtime, name)?;
        if at > 0 {
            file.seek(SeekFrom::Start(at))?;
        }
        let count = file.read(buf)?;
        if let Ok(name) = String::from_str(self.runtime.alloc(), name) {
            let place = at.saturating_add(count as u64);
            self.last = Some(Opened { name, file, place });
        }
        Ok(count)
    }
}

impl<R: rt::Files + AllocGlobal> Files for HostFiles<'_, R> {
    ghost contents = { λ _. None };

    ghost faults = { λ faults _. faults };

    fn read(&mut self, name: &str, at: u64, buf: &mut [u8]) -> Result<usize, Failed> {
        match self.read_on(name, at, buf) {
            Ok(count) => Ok(count),
            Err(_) => {
                self.faults = self.faults.saturating_add(1);
                Err(Failed)
            }
        }
    }
}

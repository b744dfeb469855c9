ghost use Rattle.std.specs.Prelude.{◌≡◌, ◌<◌, None};

use crate::{Failed, Sink};
use std::io::Write;
use std::marker::Model;

/// A stream of the system: standard output, standard error or an open file.
///
/// Clauses see it as its count of faults.
#[derive(Drop)]
pub struct HostSink<W: Write> {
    stream: W,
    faults: u64,
}

impl<W: Write> Model for HostSink<W> {
    ghost use Rattle.std.specs.Prelude.{ℕ};

    ghost Value = { ℕ };

    ghost view = { λ s. s.faults };
}

impl<W: Write> HostSink<W> {
    /// No write has failed yet.
    pub fn new(stream: W) -> Self
        ensures { result ≡ 0 }
    {
        HostSink { stream, faults: 0 }
    }
}

impl<W: Write> Sink for HostSink<W> {
    ghost taken = { λ _. None };

    ghost faults = { λ faults. faults };

    fn write(&mut self, bytes: &[u8]) -> Result<usize, Failed> {
        match self.stream.write(bytes) {
            Ok(count) if count > 0 || bytes.is_empty() => Ok(count),
            _ => {
                self.faults = self.faults.saturating_add(1);
                Err(Failed)
            }
        }
    }
}

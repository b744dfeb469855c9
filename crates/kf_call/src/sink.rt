ghost use Rattle.std.specs.Prelude.{◌≡◌, ◌<◌, ◌≤◌, ◌+◌, ◌++◌, ◌↔◌, [], Some, IsTrue, length, take, IfOk, OnErr};
ghost use Rattle.kf_io.specs.Counts.{CountsFault, raised};
ghost use Rattle.kf_call.specs.Sinks.{empty_sink};

use kf_io::{Failed, Sink};
use std::alloc::Global;
use std::marker::Model;

/// A sink in memory that grows. A write fails only where the memory for it is refused.
#[derive(Drop)]
pub(crate) struct GrowingSink {
    bytes: Vec<u8>,
    faults: u64,
}

impl Model for GrowingSink {
    ghost use Rattle.kf_call.specs.Sinks.{SinkState};

    ghost Value = { SinkState };

    ghost view = { λ s. record { bytes = s.bytes.items; faults = s.faults } };
}

impl GrowingSink {
    pub(crate) fn new(alloc: Global) -> Self
        ensures { result ≡ empty_sink }
    {
        GrowingSink {
            bytes: Vec::new(alloc),
            faults: 0,
        }
    }

    /// The bytes taken so far.
    pub(crate) fn bytes(&self) -> &[u8]
        ensures { result.now ≡ self.now.bytes }
    {
        &self.bytes
    }

    /// Whether a write has failed.
    pub(crate) fn has_failed(&self) -> bool
        ensures { IsTrue result ↔ (0 < self.now.faults) }
    {
        self.faults > 0
    }
}

impl Sink for GrowingSink {
    ghost taken = { λ s. Some s.bytes };

    ghost faults = { λ s. s.faults };

    ghost room = { λ _. 0 };

    fn write(&mut self, bytes: &[u8]) -> Result<usize, Failed>
        ensures bound { IfOk result (λ k. k ≤ length bytes.now) }
        ensures after_ok { IfOk result (λ k. self.new ≡ record self.old { bytes = self.old.bytes ++ take k bytes.now }) }
        ensures after_fault { OnErr result (self.new ≡ record self.old { faults = raised self.old.faults }) }

        // What each sink ensures, and no clause above shows by itself.
        ensures some { IfOk result (λ k. 0 < length bytes.now → 0 < k) }
        ensures cause { CountsFault self.old.faults self.new.faults result }
    {
        match self.bytes.extend_from_slice(bytes) {
            Ok(()) => Ok(bytes.len()),
            Err(_) => {
                self.faults = self.faults.saturating_add(1);
                Err(Failed)
            }
        }
    }
}

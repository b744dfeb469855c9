ghost use Rattle.std.specs.Prelude.{◌≡◌, ◌<◌, ◌≤◌, ◌+◌, ◌++◌, ◌↔◌, [], Some, length, take, IfOk, OnErr, IsOk, IsErr};
ghost use Rattle.kf_io.specs.Counts.{CountsFault, raised};
ghost use Rattle.kf_io.specs.Sinks.{fresh_sink, certain_room, write_count, WriteFails};

use crate::{CallList, Failed, Mem, Sink};
use std::alloc::Global;
use std::marker::Model;

/// A sink in memory whose writes fail by their number. Calls are numbered from 0.
#[derive(Drop)]
pub struct MemSink {
    bytes: Vec<u8>,
    room: usize,
    piece: usize,
    fail: CallList,
    calls: u64,
    faults: u64,
}

impl Model for MemSink {
    ghost use Rattle.std.specs.Prelude.{◌<◌, ◌≤◌, vec_len, vec_capacity};
    ghost use Rattle.kf_io.specs.Sinks.{SinkState};

    ghost Value = { SinkState };

    ghost view = { λ s. record {
      bytes = s.bytes.items;
      room = s.room;
      piece = s.piece;
      fail = s.fail;
      calls = s.calls;
      faults = s.faults;
    } };

    ghost invariant = { λ s.
        (0 < s.piece) × (vec_len s.bytes ≤ s.room) × (s.room ≤ vec_capacity s.bytes) };
}

impl MemSink {
    /// A write takes at most `piece` bytes. It fails where its number stands in `fail`, or where there is
    /// something to take and no room. The memory for `room` bytes is taken here, and a write takes none.
    pub fn new(alloc: Global, room: usize, piece: usize, fail: CallList) -> Result<Self, Mem>
        requires { 0 < piece }
        ensures made { IfOk result (λ made. made ≡ fresh_sink room piece fail) }
        ensures empty { IfOk result (λ made. ⟦<MemSink as Sink>⟧.taken made ≡ Some []) }
        ensures count { IfOk result (λ made. ⟦<MemSink as Sink>⟧.faults made ≡ 0) }
        ensures room { IfOk result (λ made.
            fail ≡ [] → ⟦<MemSink as Sink>⟧.room made ≡ room) }
    {
        let bytes = Vec::with_capacity(alloc, room)?;
        Ok(MemSink {
            bytes,
            room,
            piece,
            fail,
            calls: 0,
            faults: 0,
        })
    }

    /// The bytes taken so far.
    pub fn bytes(&self) -> &[u8]
        ensures { result.now ≡ self.now.bytes }
    {
        &self.bytes
    }
}

impl Sink for MemSink {
    ghost taken = { λ s. Some s.bytes };

    ghost faults = { λ s. s.faults };

    ghost room = { certain_room };

    fn write(&mut self, bytes: &[u8]) -> Result<usize, Failed>
        ensures count { IfOk result (λ k. k ≡ write_count self.old bytes.now) }
        ensures fails { IsErr result ↔ WriteFails self.old bytes.now }
        ensures after_ok { IfOk result (λ k. self.new ≡ record self.old {
          bytes = self.old.bytes ++ take k bytes.now;
          calls = raised self.old.calls;
        }) }
        ensures after_fault { OnErr result (self.new ≡ record self.old {
          calls = raised self.old.calls;
          faults = raised self.old.faults;
        }) }

        // What each sink ensures, and no clause above shows by itself.
        ensures some { IfOk result (λ k. 0 < length bytes.now → 0 < k) }
        ensures cause { CountsFault self.old.faults self.new.faults result }
        ensures certain { 0 < length bytes.now
            → length bytes.now ≤ certain_room self.old → IsOk result }
        ensures left { IfOk result (λ k. certain_room self.old ≤ certain_room self.new + k) }
    {
        let call = self.calls;
        self.calls = call.saturating_add(1);
        let left = self.room - self.bytes.len();
        if self.fail.as_slice().contains(&call) || (left == 0 && !bytes.is_empty()) {
            self.faults = self.faults.saturating_add(1);
            return Err(Failed);
        }
        let count = bytes.len().min(self.piece).min(left);
        self.bytes.extend_from_slice(&bytes[..count]).unwrap();
        Ok(count)
    }
}

ghost use Rattle.std.specs.Prelude.{◌+◌, ◌≤◌, length, OnOk, OnErr, IsOk};
ghost use Rattle.std.specs.List.{flat_map};
ghost use Rattle.std.specs.Io.KnownBytes.{Appends};
ghost use Rattle.kf_io.specs.Counts.{CountsFault};
ghost use Rattle.kf_io.specs.Writes.{AppendsSome};

use crate::{Failed, Sink};

/// Writes all of the bytes. After `Failed` the sink took a front of them. Takes no memory.
pub fn write_all<O: Sink>(sink: &mut O, bytes: &[u8]) -> Result<(), Failed>
    ensures took { OnOk result (Appends (O.taken sink.old) (O.taken sink.new) bytes.now) }
    ensures front { OnErr result (AppendsSome (O.taken sink.old) (O.taken sink.new) bytes.now) }
    ensures cause { CountsFault (O.faults sink.old) (O.faults sink.new) result }
    ensures certain { length bytes.now ≤ O.room sink.old → IsOk result }
    ensures left { OnOk result (O.room sink.old ≤ O.room sink.new + length bytes.now) }
{
    let mut done = 0;
    'pieces: while done < bytes.len() {
        let count = sink.write(&bytes[done..])?;
        done += count;
    }
    Ok(())
}

/// Writes texts one after the other. After `Failed` the sink took a front of them. Takes no memory.
pub fn write_pieces<O: Sink>(sink: &mut O, pieces: &[&str]) -> Result<(), Failed>
    ensures took { OnOk result
        (Appends (O.taken sink.old) (O.taken sink.new) (flat_map (λ p. p.now) pieces.now)) }
    ensures front { OnErr result
        (AppendsSome (O.taken sink.old) (O.taken sink.new) (flat_map (λ p. p.now) pieces.now)) }
    ensures cause { CountsFault (O.faults sink.old) (O.faults sink.new) result }
    ensures certain { length (flat_map (λ p. p.now) pieces.now) ≤ O.room sink.old
        → IsOk result }
    ensures left { OnOk result
        (O.room sink.old ≤ O.room sink.new + length (flat_map (λ p. p.now) pieces.now)) }
{
    'pieces: for piece in pieces {
        write_all(sink, piece.as_bytes())?;
    }
    Ok(())
}

ghost use Rattle.std.specs.Prelude.{◌≡◌, ◌≢◌, ◌⊎◌, ◌≤◌, [], map, string_bytes};
ghost use Rattle.kf_io.specs.Entries.{bytes_of};
ghost use Rattle.kf_io.specs.Sinks.{room_left};
ghost use Rattle.kf_top.specs.Ends.{sunk};
ghost use Rattle.kf_laws.specs.EndsOver.{AnsweredOver};
ghost use Rattle.kf_laws.specs.Rooms.{HasRoom, IsWritten};
ghost use Rattle.kf_laws.specs.Written.{ChecksWritten};

use crate::definitions::{certificates_accepted, told_answers};
use kf_io::{MemSink, Sink, SureFiles};
use kf_top::run;
use std::alloc::Global;

/// A run over files that never fail: no read fails; and where `out` is certain to have room for every
/// defined answer, no write fails, and the run ends with such an answer or for want of memory.
pub fn run_over_sure_files<O: Sink, E: Sink>(
    alloc: Global,
    words: &[String],
    files: &mut SureFiles,
    out: &mut O,
    err: &mut E,
) -> u8
    ensures no_read_fails { result ≢ 3 }
    ensures no_write_fails { HasRoom (map string_bytes words.now) (bytes_of files.old.files) (O.room out.old) → result ≢ 4 }
    ensures no_fault { HasRoom (map string_bytes words.now) (bytes_of files.old.files) (O.room out.old)
        → O.faults out.new ≤ O.faults out.old }
    ensures answered { HasRoom (map string_bytes words.now) (bytes_of files.old.files) (O.room out.old) → result ≢ 12
        → AnsweredOver (map string_bytes words.now) (bytes_of files.old.files)
        (sunk O.taken O.faults O.room out.old out.new) (sunk E.taken E.faults E.room err.old err.new) result }
{
    told_answers();
    run(alloc, words, files, out, err)
}

/// The same where `out` is a sink in memory of which no call is listed to fail.
pub fn run_in_memory<E: Sink>(
    alloc: Global,
    words: &[String],
    files: &mut SureFiles,
    out: &mut MemSink,
    err: &mut E,
) -> u8
    ensures { out.old.fail ≡ [] → HasRoom (map string_bytes words.now) (bytes_of files.old.files) (room_left out.old) → result ≢ 12
        → IsWritten (map string_bytes words.now) (bytes_of files.old.files) out.old.bytes out.new.bytes result }
{
    run_over_sure_files(alloc, words, files, out, err)
}

/// The check of a certificate that an earlier run of `refine --json` wrote on the same two texts: it ends with `accepted` (status 0), too wide
/// (status 7), or for want of memory.
pub fn check_what_was_written<O: Sink, E: Sink>(
    alloc: Global,
    words: &[String],
    files: &mut SureFiles,
    out: &mut O,
    err: &mut E,
) -> u8
    ensures { ChecksWritten (map string_bytes words.now) (bytes_of files.old.files)
        → HasRoom (map string_bytes words.now) (bytes_of files.old.files) (O.room out.old) → result ≢ 12
        → (result ≡ 0) ⊎ (result ≡ 7) }
{
    certificates_accepted();
    run_over_sure_files(alloc, words, files, out, err)
}

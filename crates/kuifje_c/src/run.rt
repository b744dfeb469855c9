ghost use Rattle.std.specs.Prelude.{◌≡◌, ◌≢◌, ◌⊎◌, ℕ, List};
ghost use Rattle.kf_call.specs.Calls.{IsCall, words_in, files_in};
ghost use Rattle.kf_call.specs.Runs.{Answered};

use kf_call::{FileSpans, Lengths, Span, answer_call};
use std::alloc::Global;

/// Does what the words ask for over the files, and gives the program's status.
///
/// `out` and `err` get the front of what the program would write to standard output and to standard error, as much as there is room for;
/// `lengths` gets how much all of it is. With status 12, want of memory, and with status 64 they get nothing, and both lengths are 0.
#[unsafe(no_mangle)]
pub extern "C" fn kuifje_run(
    alloc: Global,
    bytes: &[u8],
    words: &[Span],
    files: &[FileSpans],
    out: &mut [u8],
    err: &mut [u8],
    lengths: &mut Lengths,
) -> u8
    // What a file might hold that isn't among the files; the clauses hold for any such bytes.
    ghost missing: { List ℕ }
    ensures called { result ≢ 64 → IsCall bytes.now words.now files.now }
    ensures badly_called { result ≡ 64 → ¬ IsCall bytes.now words.now files.now }
    ensures answered { result ≢ 64 → result ≢ 12
        → Answered (words_in bytes.now words.now) (files_in bytes.now files.now) missing
        out.old out.new err.old err.new lengths.new.out lengths.new.err result }
    ensures never_unwritten { result ≢ 4 }
    ensures unchanged { (result ≡ 64) ⊎ (result ≡ 12)
        → (out.new ≡ out.old) × (err.new ≡ err.old) × (lengths.new ≡ record { out = 0; err = 0 }) }
{
    answer_call(alloc, bytes, words, files, out, err, lengths)
}

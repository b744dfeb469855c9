ghost use Rattle.std.specs.Prelude.{◌≡◌, ◌≢◌, ◌⊎◌, ℕ, List, IfOk, IfSome, IsTrue, map, string_bytes};
ghost use Rattle.kf_call.specs.Calls.{IsCall, words_in, files_in};
ghost use Rattle.kf_call.specs.Contents.{IsMissing};
ghost use Rattle.kf_call.specs.Runs.{HasRun, Answers, Answered, HasFront};

use crate::files::CallFiles;
use crate::line::is_of_missing;
use crate::memory::Refused;
use crate::sink::GrowingSink;
use crate::spans::{FileSpans, Span, files_of, is_call, words_of};
use kf_io::FileList;
use kf_top::run;
use std::alloc::Global;

/// The status where a file can't be read.
const READ_FAILED: u8 = 3;

/// The status where memory is refused.
const WANT_OF_MEMORY: u8 = 12;

/// The status where a span isn't within the bytes, or a word or a name isn't UTF-8.
const BADLY_CALLED: u8 = 64;

/// How many bytes the whole answer has, on standard output and on standard error.
#[repr(C)]
#[derive(Clone, Copy)]
pub struct Lengths {
    pub out: usize,
    pub err: usize,
}

// A status, with all that a program would write.
#[derive(Drop)]
struct Answer {
    status: u8,
    out: GrowingSink,
    err: GrowingSink,
}

// The program's run over these files.
fn answer_over(alloc: Global, words: &[String], files: FileList) -> Result<Answer, Refused>
    ghost missing: { List ℕ }
    ensures run { IfOk result (λ a. HasRun (map string_bytes words.now) files missing a.out.bytes a.err.bytes a.status) }
    ensures written { IfOk result (λ a. a.status ≢ 4) }
    ensures memory { IfOk result (λ a. a.status ≢ 12) }
    ensures called { IfOk result (λ a. a.status ≢ 64) }
{
    let mut files = CallFiles::new(alloc, files)?;
    let mut out = GrowingSink::new(alloc);
    let mut err = GrowingSink::new(alloc);
    let status = run(alloc, words, &mut files, &mut out, &mut err);
    if status == WANT_OF_MEMORY || out.has_failed() || err.has_failed() {
        return Err(Refused);
    }
    Ok(Answer { status, out, err })
}

// The answer to a call. The look whether a file that can't be read isn't among the files is there for the proof alone: `run` says that its
// read failed, and not why.
fn called(
    alloc: Global,
    bytes: &[u8],
    words: &[Span],
    files: &[FileSpans],
) -> Result<Answer, Refused>
    ghost missing: { List ℕ }
    requires { IsCall bytes.now words.now files.now }
    ensures answers { IfOk result (λ a. Answers (words_in bytes.now words.now) (files_in bytes.now files.now) missing a.out.bytes a.err.bytes a.status) }
    ensures written { IfOk result (λ a. a.status ≢ 4) }
    ensures memory { IfOk result (λ a. a.status ≢ 12) }
    ensures called { IfOk result (λ a. a.status ≢ 64) }
{
    let texts = words_of(alloc, bytes, words)?;
    let answer = answer_over(alloc, &texts, files_of(alloc, bytes, files)?)?;
    if answer.status == READ_FAILED && !is_of_missing(answer.err.bytes(), bytes, files) {
        return Err(Refused);
    }
    Ok(answer)
}

// Copies the front that fits to the buffer, and gives the length of all.
fn put_front(bytes: &[u8], buffer: &mut [u8]) -> usize
    ensures { HasFront buffer.old buffer.new result bytes.now }
{
    let count = bytes.len().min(buffer.len());
    buffer[..count].copy_from_slice(&bytes[..count]);
    bytes.len()
}

/// Does what the words ask for over the files, and gives the program's status.
///
/// `out` and `err` get the front of what the program would write to standard output and to standard error, as much as there is room for;
/// `lengths` gets how much all of it is. With status 12, want of memory, and with status 64 they get nothing, and both lengths are 0.
pub fn answer_call(
    alloc: Global,
    bytes: &[u8],
    words: &[Span],
    files: &[FileSpans],
    out: &mut [u8],
    err: &mut [u8],
    lengths: &mut Lengths,
) -> u8
    // What a file might hold that isn't among the files; the clauses hold for any such bytes.
    ghost missing: { List ℕ }
    ensures called { result ≢ 64 → IsCall bytes.now words.now files.now }
    ensures badly_called { result ≡ 64 → ¬ IsCall bytes.now words.now files.now }
    ensures answered { result ≢ 64 → result ≢ 12
        → Answered (words_in bytes.now words.now) (files_in bytes.now files.now) missing
        out.old out.new err.old err.new lengths.new.out lengths.new.err result }
    ensures never_unwritten { result ≢ 4 }
    ensures unchanged { (result ≡ 64) ⊎ (result ≡ 12)
        → (out.new ≡ out.old) × (err.new ≡ err.old) × (lengths.new ≡ record { out = 0; err = 0 }) }
{
    *lengths = Lengths { out: 0, err: 0 };
    if !is_call(bytes, words, files) {
        return BADLY_CALLED;
    }
    match called(alloc, bytes, words, files) {
        Ok(answer) => {
            lengths.out = put_front(answer.out.bytes(), out);
            lengths.err = put_front(answer.err.bytes(), err);
            answer.status
        }
        Err(Refused) => WANT_OF_MEMORY,
    }
}

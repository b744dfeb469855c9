ghost use Rattle.std.specs.Prelude.{◌≡◌, ◌≤◌, ℕ, List, None, Some, IfOk, IsErrOf, map, string_bytes};
ghost use Rattle.kf_top.specs.Answer.{usage as usage_refusal};
ghost use Rattle.kf_top.specs.Ends.{sunk, CausesOf, IsQuiet, Sunk, TookNothing};
ghost use Rattle.kf_top.specs.Outcome.{Outcome};
ghost use Rattle.kf_top.specs.Written.{EndsAs, IsRefused, WrittenOf, want_of_memory};
ghost use Rattle.kf_top.specs.Steps.{HasCauses};
ghost use Rattle.kf_words.specs.Task.{task_of};
ghost use Rattle.kf_words.specs.Jobs.{task_of_job, HasTurns, IsInRange};
ghost use Rattle.kf_words.specs.declared.error.WordsError.TheVariants as words_error;

use crate::end::{End, Notice};
use crate::refusal::{Done, Stop};
use crate::status::status_of;
use crate::stderr::report;
use crate::work::work;
use kf_io::{Failed, Files, Sink, write_all};
use kf_words::{Job, WordsError, read_words};
use std::alloc::Global;

// How a run ends whose words ask for nothing that can be done: the words are wrong, or memory is wanting.
fn unasked<'a>(error: WordsError) -> End<'a>
    ensures usage { error ≡ words_error.Usage → EndsAs (IsRefused usage_refusal) result }
    ensures memory { error ≡ words_error.Mem → EndsAs (IsRefused want_of_memory) result }
    ensures quiet { (out : Sunk) → TookNothing out → EndsAs (IsQuiet out) result }
    ensures bound { result.status ≤ 13 }
{
    match error {
        WordsError::Usage => End {
            status: 2,
            notice: Some(Notice::Usage),
        },
        WordsError::Mem => End {
            status: 12,
            notice: Some(Notice::Mem),
        },
    }
}

// Writes an answer to `out`, if there is one, and says how the run ends.
fn settle<'a, O: Sink>(answer: Result<Done, Stop<'a>>, out: &mut O) -> End<'a>
    ensures written { EndsAs (WrittenOf answer.entry (sunk O.taken O.faults O.room out.old out.new)) result }
    ensures quiet { EndsAs (IsQuiet (sunk O.taken O.faults O.room out.old out.new)) result }
    ensures bound { result.status ≤ 13 }
{
    match answer {
        Ok(done) => match write_all(out, &done.bytes) {
            Ok(()) => End {
                status: if done.yes { 0 } else { 1 },
                notice: None,
            },
            Err(Failed) => End {
                status: 4,
                notice: Some(Notice::WriteFailed),
            },
        },
        Err(Stop::Refused(refusal)) => End {
            status: status_of(&refusal),
            notice: Some(Notice::Refused(refusal)),
        },
        Err(Stop::Mem) => End {
            status: 12,
            notice: Some(Notice::Mem),
        },
    }
}

// Does what is asked for, if anything is, and writes the answer. Standard error is out of its reach.
fn carry_out<'a, F: Files, O: Sink>(
    alloc: Global,
    files: &mut F,
    asked: &'a Result<Job, WordsError>,
    out: &mut O,
) -> End<'a>
    requires turns { IfOk asked.now (λ job. HasTurns (task_of_job job)) }
    requires range { IfOk asked.now (λ job. IsInRange (task_of_job job).command) }
    ensures causes { (words : List (List ℕ)) → IfOk asked.now (λ job. task_of words ≡ Some (task_of_job job))
        → (IsErrOf asked.now WordsError.Usage → task_of words ≡ None)
        → EndsAs (HasCauses words (F.contents files.old) (F.faults files.old) (F.faults files.new)
        (sunk O.taken O.faults O.room out.old out.new)) result }
    ensures quiet { EndsAs (IsQuiet (sunk O.taken O.faults O.room out.old out.new)) result }
    ensures bound { result.status ≤ 13 }
{
    match asked {
        Ok(job) => {
            let answer = work(alloc, files, job);
            settle(answer, out)
        }
        Err(error) => unasked(*error),
    }
}

/// Does what the words ask for: reads their files, writes the answer to `out`, and gives the status.
///
/// The first word, the program's name, isn't looked at. The whole answer is built before its first byte
/// is written. A refusal goes to `err` as one line; a fault of `err` changes nothing else.
pub fn run<F: Files, O: Sink, E: Sink>(
    alloc: Global,
    words: &[String],
    files: &mut F,
    out: &mut O,
    err: &mut E,
) -> u8
    ensures causes { CausesOf (task_of (map string_bytes words.now)) (Outcome (map string_bytes words.now))
        (F.contents files.old) (F.faults files.old) (F.faults files.new)
        (sunk O.taken O.faults O.room out.old out.new) (sunk E.taken E.faults E.room err.old err.new) result }
    ensures quiet { IsQuiet (sunk O.taken O.faults O.room out.old out.new) (sunk E.taken E.faults E.room err.old err.new) result }
    ensures bound { result ≤ 13 }
{
    let asked = read_words(alloc, words);
    let end = carry_out(alloc, files, &asked, out);
    report(end, err)
}

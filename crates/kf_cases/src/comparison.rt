ghost use Rattle.std.specs.Prelude.{◌<◌, IsUtf8};

use crate::cases::Case;
use crate::errors::CaseError;
use crate::keys::read_case;
use crate::runs::{Given, run_case};
use crate::tally::Tally;
use std::io;

// Whether the status and both streams are as the case has them.
fn agrees(case: &Case, given: &Given) -> bool {
    case.status == Some(given.status)
        && case.out.wanted.as_slice() == given.out.bytes()
        && case.err.wanted.as_slice() == given.err.bytes()
}

// Where the line begins in which the two first differ.
fn line_of_difference(wanted: &[u8], given: &[u8]) -> usize {
    let mut start = 0;
    for i in 0..wanted.len().min(given.len()) {
        if wanted[i] != given[i] {
            return start;
        }
        if wanted[i] == b'\n' {
            start = i + 1;
        }
    }
    start
}

// The line that begins there.
fn line_at(bytes: &[u8], start: usize) -> &[u8] {
    let rest = bytes.get(start..).unwrap_or_default();
    match rest.iter().position(|byte| *byte == b'\n') {
        Some(end) => rest.get(..end).unwrap_or_default(),
        None => rest,
    }
}

// Prints the line of a stream.
fn print_line(rt: &impl Print, what: &str, line: &[u8]) -> io::Result<()> {
    match str::from_utf8(line) {
        Ok(text) => println!(rt; "    {what}: {text}"),
        Err(_) => println!(rt; "    {what}: {line:?}"),
    }
}

// Prints the lines in which a stream first differs from what is wanted, if it does.
fn print_stream(rt: &impl Print, name: &str, wanted: &[u8], given: &[u8]) -> io::Result<()> {
    if wanted != given {
        let start = line_of_difference(wanted, given);
        println!(rt; "  {name}, from byte {start} on")?;
        print_line(rt, "wanted", line_at(wanted, start))?;
        print_line(rt, "given", line_at(given, start))?;
    }
    Ok(())
}

fn print_difference(rt: &impl Print, name: &str, case: &Case, given: &Given) -> io::Result<()> {
    println!(rt; "{name}")?;
    if case.status != Some(given.status) {
        let wanted = case.status.unwrap_or_default();
        let status = given.status;
        println!(rt; "  status {wanted} is wanted, and {status} given")?;
    }
    print_stream(rt, "out", &case.out.wanted, given.out.bytes())?;
    print_stream(rt, "err", &case.err.wanted, given.err.bytes())
}

// Runs a case and counts it. Its first line has its name.
fn try_case(rt: &(impl Print + AllocGlobal), text: &str, tally: &mut Tally) -> io::Result<()>
    ensures { 0 < tally.old.differ → 0 < tally.new.differ }
{
    let (name, lines) = text.split_once('\n').unwrap_or((text, ""));
    match read_case(rt.alloc(), lines) {
        Ok(case) => match run_case(rt.alloc(), &case) {
            Ok(given) => {
                let agrees = agrees(&case, &given);
                tally.count(agrees);
                if agrees {
                    Ok(())
                } else {
                    print_difference(rt, name, &case, &given)
                }
            }
            Err(error) => not_run(rt, name, error, tally),
        },
        Err(error) => not_run(rt, name, error, tally),
    }
}

// Counts a case that can't be read or run as one that differs.
fn not_run(rt: &impl Print, name: &str, error: CaseError, tally: &mut Tally) -> io::Result<()>
    ensures { 0 < tally.new.differ }
{
    tally.count(false);
    match error {
        CaseError::Unreadable => println!(rt; "{name}: can't be read"),
        CaseError::Mem => println!(rt; "{name}: want of memory"),
    }
}

// Whether these lines before the first case say nothing.
fn is_head(text: &str) -> bool {
    text.split('\n')
        .all(|line| line.is_empty() || line.starts_with('#'))
}

// Runs the cases of a text without its last line, and counts them.
fn try_cases(
    rt: &(impl Print + AllocGlobal),
    name: &str,
    text: &str,
    tally: &mut Tally,
) -> io::Result<u64>
    ensures { 0 < tally.old.differ → 0 < tally.new.differ }
{
    let mut number = 0u64;
    let mut cases = text.split("\ncase ");
    if !cases.next().is_some_and(is_head) {
        not_run(rt, name, CaseError::Unreadable, tally)?;
    }
    for case in cases {
        number = number.saturating_add(1);
        try_case(rt, case, tally)?;
    }
    Ok(number)
}

/// Runs the cases of a file, and counts them. One that isn't whole counts as a case that differs.
pub fn try_file(
    rt: &(impl Print + AllocGlobal),
    name: &str,
    bytes: &[u8],
    tally: &mut Tally,
) -> io::Result<()>
    ensures kept { 0 < tally.old.differ → 0 < tally.new.differ }
    ensures no_text { ¬ (IsUtf8 bytes.now) → 0 < tally.new.differ }
{
    let Ok(text) = str::from_utf8(bytes) else {
        return not_run(rt, name, CaseError::Unreadable, tally);
    };
    let (cases, end) = text.rsplit_once("\nend ").unwrap_or((text, ""));
    let number = try_cases(rt, name, cases, tally)?;
    if end.strip_suffix('\n').and_then(|count| count.parse().ok()) != Some(number) {
        tally.count(false);
        println!(rt; "{name}: cut off, or not as many cases as its last line has")?;
    }
    Ok(())
}

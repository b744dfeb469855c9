ghost use Rattle.std.specs.Prelude.{◌≡◌, Ok, Err, IfOk, IfErr};

use kf_value::Mem;
use std::alloc::{AllocError, AllocFailed};

/// Why a file holds no program that can be run.
#[derive(Debug, Drop)]
pub enum Refusal<'a> {
    /// A read of the file failed.
    ReadFailed(&'a str),
    /// The file has more than 1,048,576 bytes.
    TooLong(&'a str),
    /// The file's text is no program: the line, the column and the word of the fault.
    BadText(&'a str, u32, u32, &'static str),
    /// The file's program stops at a fault: the line, the column and its word.
    BadRun(&'a str, u32, u32, &'static str),
    /// The scale of the file's program passes 2^127 - 1.
    WideScale(&'a str),
    /// The file's program has this number of statements at its top level, which is too small.
    FewStatements(&'a str, usize),
}

/// Why there is no program.
#[derive(Debug, Drop)]
pub enum Stop<'a> {
    /// The file has none.
    Refused(Refusal<'a>),
    /// Out of memory.
    Mem,
}

/// What there was first, beside what came then, where that didn't fail.
pub(crate) fn beside<A: Drop, B, E>(first: A, second: Result<B, E>) -> Result<(A, B), E>
    ensures both { IfOk result (λ both. (both.0 ≡ first) × (second ≡ Ok both.1)) }
    ensures err { IfErr result (λ e. second ≡ Err e) }
{
    let second = second?;
    Ok((first, second))
}

ghost use Rattle.std.specs.Prelude.{◌≢◌, ◌≤◌, IfOk, None};

use crate::cases::{Case, NamedFile, Stream};
use crate::errors::CaseError;
use kf_io::{ByteList, CallList, FileEntry, FileList, FileName, MemFiles, MemSink};
use kf_top::run;
use std::alloc::Global;

/// What a run ended with.
#[derive(Drop)]
pub struct Given {
    pub status: u8,
    pub out: MemSink,
    pub err: MemSink,
}

fn text_of(alloc: Global, bytes: &[u8]) -> Result<String, CaseError> {
    let text = str::from_utf8(bytes).map_err(|_| CaseError::Unreadable)?;
    Ok(String::from_str(alloc, text)?)
}

fn words_of(alloc: Global, words: &[Vec<u8>]) -> Result<Vec<String>, CaseError> {
    let mut texts = Vec::new(alloc);
    for word in words {
        texts.push(text_of(alloc, word)?)?;
    }
    Ok(texts)
}

fn entry_of(alloc: Global, file: &NamedFile) -> Result<FileEntry, CaseError> {
    let name = text_of(alloc, &file.name)?;
    let bytes = file.bytes.as_slice().to_vec(alloc)?;
    Ok(FileEntry {
        name: FileName::new(name),
        bytes: ByteList::new(bytes),
    })
}

fn files_of(alloc: Global, files: &[NamedFile]) -> Result<FileList, CaseError> {
    let mut entries = Vec::new(alloc);
    for file in files {
        entries.push(entry_of(alloc, file)?)?;
    }
    Ok(FileList::new(entries))
}

fn calls_of(alloc: Global, calls: &[u64]) -> Result<CallList, CaseError> {
    Ok(CallList::new(calls.to_vec(alloc)?))
}

fn sink_of(alloc: Global, stream: &Stream) -> Result<MemSink, CaseError> {
    if stream.piece == 0 {
        return Err(CaseError::Unreadable);
    }
    let fail = calls_of(alloc, &stream.fail)?;
    Ok(MemSink::new(alloc, stream.room, stream.piece, fail)?)
}

/// What comes of a case's words over its files and sinks; a case that wants no status isn't run.
pub fn run_case(alloc: Global, case: &Case) -> Result<Given, CaseError>
    ensures wanted { IfOk result (λ given. case.now.status ≢ None) }
    ensures bound { IfOk result (λ given. given.status ≤ 13) }
{
    if case.status.is_none() || case.read_piece == 0 {
        return Err(CaseError::Unreadable);
    }
    let words = words_of(alloc, &case.words)?;
    let files = files_of(alloc, &case.files)?;
    let fail = calls_of(alloc, &case.read_fail)?;
    let mut files = MemFiles::new(alloc, files, case.read_piece, fail)?;
    let mut out = sink_of(alloc, &case.out)?;
    let mut err = sink_of(alloc, &case.err)?;
    let status = run(alloc, &words, &mut files, &mut out, &mut err);
    Ok(Given { status, out, err })
}

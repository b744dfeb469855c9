ghost use Rattle.std.specs.Prelude.{◌≡◌, IfOk, IsTrue, ◌↔◌, All, map, string_bytes};
ghost use Rattle.kf_call.specs.Calls.{piece, IsWithin, IsText, AreTexts, IsFile, AreFiles, IsCall, words_in, file_in, files_in};

use crate::memory::Refused;
use kf_io::{ByteList, FileEntry, FileList, FileName};
use std::alloc::Global;

/// The bytes from `from` up to but not with `end`, counted from 0.
#[repr(C)]
#[derive(Clone, Copy)]
pub struct Span {
    pub from: usize,
    pub end: usize,
}

/// Where a file's name stands, and where its contents.
#[repr(C)]
#[derive(Clone, Copy)]
pub struct FileSpans {
    pub name: Span,
    pub contents: Span,
}

fn is_within(bytes: &[u8], span: Span) -> bool
    ensures { IsTrue result ↔ IsWithin bytes.now span }
{
    span.from <= span.end && span.end <= bytes.len()
}

fn is_text(bytes: &[u8], span: Span) -> bool
    ensures { IsTrue result ↔ IsText bytes.now span }
{
    is_within(bytes, span) && std::str::from_utf8(&bytes[span.from..span.end]).is_ok()
}

fn is_file(bytes: &[u8], file: FileSpans) -> bool
    ensures { IsTrue result ↔ IsFile bytes.now file }
{
    is_text(bytes, file.name) && is_within(bytes, file.contents)
}

fn are_texts(bytes: &[u8], spans: &[Span]) -> bool
    ensures { IsTrue result ↔ AreTexts bytes.now spans.now }
{
    for span in spans {
        if !is_text(bytes, *span) {
            return false;
        }
    }
    true
}

fn are_files(bytes: &[u8], files: &[FileSpans]) -> bool
    ensures { IsTrue result ↔ AreFiles bytes.now files.now }
{
    for file in files {
        if !is_file(bytes, *file) {
            return false;
        }
    }
    true
}

/// Whether each word and each file lies within the bytes, and each word and name is UTF-8.
pub(crate) fn is_call(bytes: &[u8], words: &[Span], files: &[FileSpans]) -> bool
    ensures { IsTrue result ↔ IsCall bytes.now words.now files.now }
{
    are_texts(bytes, words) && are_files(bytes, files)
}

// A copy of a word or a name.
fn text_of(alloc: Global, bytes: &[u8], span: Span) -> Result<String, Refused>
    requires { IsText bytes.now span }
    ensures { IfOk result (λ text. string_bytes text ≡ piece bytes.now span) }
{
    let text = std::str::from_utf8(&bytes[span.from..span.end]).unwrap();
    Ok(String::from_str(alloc, text)?)
}

// A copy of a file.
fn file_of(alloc: Global, bytes: &[u8], file: FileSpans) -> Result<FileEntry, Refused>
    requires { IsFile bytes.now file }
    ensures { IfOk result (λ made. made ≡ file_in bytes.now file) }
{
    let name = text_of(alloc, bytes, file.name)?;
    let contents = &bytes[file.contents.from..file.contents.end];
    Ok(FileEntry {
        name: FileName::new(name),
        bytes: ByteList::new(Vec::from_slice(alloc, contents)?),
    })
}

pub(crate) fn words_of(alloc: Global, bytes: &[u8], spans: &[Span]) -> Result<Vec<String>, Refused>
    requires { AreTexts bytes.now spans.now }
    ensures { IfOk result (λ made. map string_bytes made.items ≡ words_in bytes.now spans.now) }
{
    let mut made = Vec::new(alloc);
    for span in spans {
        made.push(text_of(alloc, bytes, *span)?)?;
    }
    Ok(made)
}

pub(crate) fn files_of(
    alloc: Global,
    bytes: &[u8],
    files: &[FileSpans],
) -> Result<FileList, Refused>
    requires { AreFiles bytes.now files.now }
    ensures { IfOk result (λ made. made ≡ files_in bytes.now files.now) }
{
    let mut made = Vec::new(alloc);
    for file in files {
        made.push(file_of(alloc, bytes, *file)?)?;
    }
    Ok(FileList::new(made))
}

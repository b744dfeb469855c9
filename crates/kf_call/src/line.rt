ghost use Rattle.std.specs.Prelude.{◌≡◌, ℕ, List, IfSome, IsTrue, codes};
ghost use Rattle.std.specs.Str.{bytes_eq};
ghost use Rattle.kf_load.specs.Steps.{message};
ghost use Rattle.kf_call.specs.Calls.{piece, IsText, AreFiles, files_in};
ghost use Rattle.kf_call.specs.Contents.{IsMissing};

use crate::spans::{FileSpans, Span};

// The name in the line on a file that can't be read.
fn unread_name(line: &[u8]) -> Option<&str>
    ensures { IfSome result (λ name. line.now ≡ message name.now (codes ": read failed")) }
{
    let name = line
        .strip_prefix(b"kuifje: ")?
        .strip_suffix(b": read failed\n")?;
    match std::str::from_utf8(name) {
        Ok(name) => Some(name),
        Err(_) => None,
    }
}

fn is_name(bytes: &[u8], span: Span, name: &str) -> bool
    requires { IsText bytes.now span }
    ensures { result ≡ bytes_eq (piece bytes.now span) name.now }
{
    std::str::from_utf8(&bytes[span.from..span.end]).unwrap() == name
}

fn is_missing(bytes: &[u8], files: &[FileSpans], name: &str) -> bool
    requires { AreFiles bytes.now files.now }
    ensures { IsTrue result → IsMissing (files_in bytes.now files.now) name.now }
{
    for file in files {
        if is_name(bytes, file.name, name) {
            return false;
        }
    }
    true
}

/// Whether the line says that a file can't be read which isn't among the files.
pub(crate) fn is_of_missing(line: &[u8], bytes: &[u8], files: &[FileSpans]) -> bool
    requires { AreFiles bytes.now files.now }
    ensures { IsTrue result → (name : List ℕ) × (line.now ≡ message name (codes ": read failed")) × IsMissing (files_in bytes.now files.now) name }
{
    match unread_name(line) {
        Some(name) => is_missing(bytes, files, name),
        None => false,
    }
}

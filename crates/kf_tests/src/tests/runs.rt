// Runs over files that never fail, as a library of the program's own makes them.
use crate::tests::words_of;
use kf_io::{ByteList, CallList, FileEntry, FileList, FileName, MemSink, SureFiles};
use kf_laws::{run_in_memory, run_over_sure_files};
use std::alloc::AllocError;
use std::fmt::Write;
use std::process::Abort;

const PARITIES: &str = "var x : 0..3 := uniform 0..3;\nobserve x mod 2;\n";

const PARITY: &str = "target x
scale 4
inners 2
inner 0 outer 1/2
  0 1/2
  2 1/2
inner 1 outer 1/2
  1 1/2
  3 1/2
";

fn file(rt: &(impl Abort + AllocGlobal), text: &str) -> FileEntry {
    let name = String::from_str(rt.alloc(), "p.kf").expect(rt, "memory");
    let bytes = text.as_bytes().to_vec(rt.alloc()).expect(rt, "memory");
    FileEntry {
        name: FileName::new(name),
        bytes: ByteList::new(bytes),
    }
}

// The one file `p.kf`, in pieces of 7 bytes.
fn program(rt: &(impl Abort + AllocGlobal), text: &str) -> SureFiles {
    let files = vec![in rt.alloc(); file(rt, text)].expect(rt, "memory");
    SureFiles::new(FileList::new(files), 7)
}

// A sink that takes large pieces and has room enough.
fn ample(rt: &(impl Abort + AllocGlobal)) -> MemSink {
    let fail = CallList::new(Vec::new(rt.alloc()));
    MemSink::new(rt.alloc(), 4_194_304, 65536, fail).expect(rt, "memory")
}

// The status of `hyper p.kf` over files, and what it writes.
fn over_sure_files(rt: &(impl Abort + AllocGlobal), text: &str, out: &mut MemSink) -> u8 {
    let words = words_of(rt, "kuifje hyper p.kf");
    let mut files = program(rt, text);
    run_over_sure_files(rt.alloc(), &words, &mut files, out, &mut ample(rt))
}

fn in_memory(rt: &(impl Abort + AllocGlobal), text: &str, out: &mut MemSink) -> u8 {
    let words = words_of(rt, "kuifje hyper p.kf");
    let mut files = program(rt, text);
    run_in_memory(rt.alloc(), &words, &mut files, out, &mut ample(rt))
}

#[test]
fn answers_over_sure_files(rt: HostRuntime) {
    let mut out = ample(&rt);
    let status = over_sure_files(&rt, PARITIES, &mut out);
    assert!(rt; status == 0 && out.bytes() == PARITY.as_bytes());
}

#[test]
fn answers_in_memory(rt: HostRuntime) {
    let mut out = ample(&rt);
    let status = in_memory(&rt, PARITIES, &mut out);
    assert!(rt; status == 0 && out.bytes() == PARITY.as_bytes());
}

fn write_inner(text: &mut String, value: u32) -> Result<(), AllocError> {
    write!(text, "inner {value} outer 1/65536\n  {value} 1\n")
}

// The residues mod 256 and mod 257 tell all values below 256 * 257 apart.
const RESIDUES: &str =
    "var x : 0..65535 := uniform 0..65535;\nobserve x mod 256;\nobserve x mod 257;\n";

// The hyper of as many inners as values, each of one value.
fn all_values(rt: &(impl Abort + AllocGlobal)) -> String {
    let mut text = String::new(rt.alloc());
    text.push_str("target x\nscale 65536\ninners 65536\n")
        .expect(rt, "memory");
    for value in 0..65536 {
        write_inner(&mut text, value).expect(rt, "memory");
    }
    text
}

#[test]
fn many_classes(rt: HostRuntime) {
    let mut out = ample(&rt);
    let status = over_sure_files(&rt, RESIDUES, &mut out);
    assert!(rt; status == 0 && out.bytes() == all_values(&rt).as_bytes());
}

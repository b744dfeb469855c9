// Each public call on its happy path, and what no clause says: what real files and streams do.
use crate::tests::{holds, is_same, is_text};
use kf_io::{
    ByteList, CallList, Failed, FileEntry, FileList, FileName, Files, HostFiles, HostSink,
    MemFiles, MemSink, ReadError, Sink, SureFiles, read_whole, write_all, write_pieces,
};
use std::alloc::Global;
use std::fs::{File, OpenOptions};
use std::io::Write;
use std::os::fd::AsRawFd;
use std::process::Abort;
use std::{fs, io, process};

fn entry(rt: &(impl Abort + AllocGlobal), name: &str, bytes: Vec<u8>) -> FileEntry {
    let name = String::from_str(rt.alloc(), name).expect(rt, "memory");
    FileEntry {
        name: FileName::new(name),
        bytes: ByteList::new(bytes),
    }
}

fn text_entry(rt: &(impl Abort + AllocGlobal), name: &str, text: &str) -> FileEntry {
    let bytes = text.as_bytes().to_vec(rt.alloc()).expect(rt, "memory");
    entry(rt, name, bytes)
}

// A file `a` of three bytes, an empty file `b`, and a second file `a` that isn't seen.
fn three_files(rt: &(impl Abort + AllocGlobal)) -> FileList {
    let entries = vec![in rt.alloc();
        text_entry(rt, "a", "abc"),
        text_entry(rt, "b", ""),
        text_entry(rt, "a", "zz"),
    ];
    FileList::new(entries.expect(rt, "memory"))
}

fn calls(rt: &(impl Abort + AllocGlobal), numbers: &[u64]) -> CallList {
    CallList::new(numbers.to_vec(rt.alloc()).expect(rt, "memory"))
}

// Whether one read into the buffer gives this, or fails where nothing is wanted.
fn gives(files: &mut impl Files, name: &str, at: u64, buf: &mut [u8], want: Option<&str>) -> bool {
    match files.read(name, at, buf) {
        Ok(count) => want.map(str::as_bytes) == Some(&buf[..count]),
        Err(Failed) => want.is_none(),
    }
}

// A name, a place, and what is read there, unless the read fails.
type Read = (&'static str, u64, Option<&'static str>);

const MEMORY_READS: [Read; 8] = [
    ("a", 0, Some("ab")),
    ("a", 2, None),
    ("a", 2, Some("c")),
    ("a", 3, Some("")),
    ("b", 0, Some("")),
    ("c", 0, None),
    ("b", 0, None),
    ("a", 1, Some("bc")),
];

#[test]
fn files_in_memory_fail_by_number_and_name(rt: HostRuntime) {
    let files = MemFiles::new(rt.alloc(), three_files(&rt), 2, calls(&rt, &[1, 6]));
    let mut files = files.expect(&rt, "memory");
    let mut buf = [0u8; 8];
    for (name, at, want) in &MEMORY_READS {
        holds(&rt, gives(&mut files, name, *at, &mut buf, *want), name);
    }
}

fn has_whole(alloc: Global, files: &mut impl Files, name: &str, want: &str) -> bool {
    match read_whole(alloc, files, name) {
        Ok(bytes) => bytes.as_slice() == want.as_bytes(),
        Err(_) => false,
    }
}

const WHOLE: [(&str, &str); 3] = [("a", "abc"), ("b", ""), ("c", "")];

#[test]
fn sure_files_are_read_whole(rt: HostRuntime) {
    let mut files = SureFiles::new(three_files(&rt), 2);
    for (name, want) in &WHOLE {
        holds(&rt, has_whole(rt.alloc(), &mut files, name, want), name);
    }
}

// One file `a` of so many spaces.
fn spaces(rt: &(impl Abort + AllocGlobal), size: usize) -> SureFiles {
    let bytes = vec![in rt.alloc(); b' '; size].expect(rt, "memory");
    let files = vec![in rt.alloc(); entry(rt, "a", bytes)].expect(rt, "memory");
    SureFiles::new(FileList::new(files), 65536)
}

// How much is read of so many spaces.
fn length_read(rt: &(impl Abort + AllocGlobal), size: usize) -> Result<usize, ReadError> {
    let bytes = read_whole(rt.alloc(), &mut spaces(rt, size), "a")?;
    Ok(bytes.len())
}

const LENGTHS: [(usize, Result<usize, ReadError>); 2] = [
    (1_048_576, Ok(1_048_576)),
    (1_048_577, Err(ReadError::TooLong)),
];

#[test]
fn a_file_of_more_than_the_limit_is_too_long(rt: HostRuntime) {
    for (size, want) in &LENGTHS {
        is_same(&rt, size, &length_read(&rt, *size), want);
    }
}

fn sink(rt: &(impl Abort + AllocGlobal), room: usize, fail: &[u64]) -> MemSink {
    MemSink::new(rt.alloc(), room, 2, calls(rt, fail)).expect(rt, "memory")
}

// Whether the sink takes the three pieces.
fn takes(sink: &mut MemSink) -> bool {
    write_pieces(sink, &["abc", "", "defghi"]).is_ok()
}

// A sink's room, which of its calls fail, and what it takes of the pieces.
const TAKEN: [(usize, &[u64], &str); 5] = [
    (9, &[7], "abcdefghi"),
    (9, &[0], ""),
    (9, &[2], "abc"),
    (5, &[], "abcde"),
    (0, &[], ""),
];

#[test]
fn a_sink_in_memory_takes_what_its_room_and_calls_allow(rt: HostRuntime) {
    for (room, fail, want) in &TAKEN {
        let mut sink = sink(&rt, *room, fail);
        let all = takes(&mut sink);
        let is_right = all == (want.len() == 9) && sink.bytes() == want.as_bytes();
        holds(&rt, is_right, want);
    }
}

// A path of the process's own.
fn own_path(rt: &(impl Abort + AllocGlobal), process: u32, name: &str) -> String {
    format!(in rt.alloc(); "/tmp/kf_io_{process}_{name}").expect(rt, "memory")
}

const SYSTEM_READS: [Read; 7] = [
    ("first", 0, Some("firs")),
    ("first", 4, Some("t fi")),
    ("second", 0, Some("seco")),
    ("missing", 0, None),
    ("first", 8, Some("le")),
    ("first", 10, Some("")),
    ("first", 2, Some("rst ")),
];

#[test]
fn files_of_the_system_are_read_by_name_and_place(rt: HostRuntime) {
    let process = process::id(rt.process());
    let first = own_path(&rt, process, "first");
    let second = own_path(&rt, process, "second");
    fs::write(&rt, first.as_str(), "first file").expect(&rt, "a first file");
    fs::write(&rt, second.as_str(), "second").expect(&rt, "a second file");
    let mut files = HostFiles::new(&rt);
    let mut buf = [0u8; 4];
    for (name, at, want) in &SYSTEM_READS {
        let path = own_path(&rt, process, name);
        let is_read = gives(&mut files, path.as_str(), *at, &mut buf, *want);
        holds(&rt, is_read, name);
    }
    assert!(rt; has_whole(rt.alloc(), &mut files, second.as_str(), "second"));
    fs::remove_file(&rt, first.as_str()).expect(&rt, "the first file");
    fs::remove_file(&rt, second.as_str()).expect(&rt, "the second file");
}

#[test]
fn a_pipe_is_read_whole(rt: HostRuntime) {
    let (reader, mut writer) = io::pipe(&rt).expect(&rt, "a pipe");
    writer.write_all(b"through a pipe").expect(&rt, "room");
    drop(writer);
    let fd = reader.as_raw_fd();
    let name = format!(in rt.alloc(); "/dev/fd/{fd}").expect(&rt, "memory");
    let mut files = HostFiles::new(&rt);
    assert!(rt; has_whole(rt.alloc(), &mut files, name.as_str(), "through a pipe"));
}

fn write_to(file: File) -> Result<(), Failed> {
    write_all(&mut HostSink::new(file), b"all of it")
}

#[test]
fn a_stream_of_the_system_takes_all(rt: HostRuntime) {
    let path = own_path(&rt, process::id(rt.process()), "written");
    let file = fs::create(&rt, path.as_str()).expect(&rt, "a file");
    write_to(file).expect(&rt, "room");
    let text = fs::read_to_string(&rt, path.as_str()).expect(&rt, "a text");
    is_text(&rt, text.as_str(), "all of it");
    fs::remove_file(&rt, path.as_str()).expect(&rt, "the file");
}

#[test]
fn a_stream_of_the_system_fails(rt: HostRuntime) {
    let full = OpenOptions::new().write(true).open(&rt, "/dev/full");
    let full = full.expect(&rt, "a full device");
    assert_eq!(rt; write_to(full), Err(Failed));
}

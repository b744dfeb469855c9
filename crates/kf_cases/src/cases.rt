use std::alloc::Global;

/// A file of a case: its name and its bytes.
#[derive(Drop)]
pub struct NamedFile {
    pub name: Vec<u8>,
    pub bytes: Vec<u8>,
}

/// How a sink takes what a run writes, and the bytes that must stand there.
#[derive(Drop)]
pub struct Stream {
    pub room: usize,
    pub piece: usize,
    pub fail: Vec<u64>,
    pub wanted: Vec<u8>,
}

impl Stream {
    fn new(alloc: Global) -> Self {
        Stream {
            room: 1_048_576,
            piece: 65_536,
            fail: Vec::new(alloc),
            wanted: Vec::new(alloc),
        }
    }
}

/// What the content lines that follow belong to.
#[derive(Clone, Copy, Debug, PartialEq, Eq)]
pub enum Part {
    /// A key line that takes no content.
    Closed,
    /// The last word.
    Word,
    /// The bytes of the last file.
    File,
    /// The name of the last file.
    Name,
    /// What must stand on standard output.
    Out,
    /// What must stand on standard error.
    Err,
}

/// A run and what must come of it, as far as it was read.
#[derive(Drop)]
pub struct Case {
    pub words: Vec<Vec<u8>>,
    pub files: Vec<NamedFile>,
    pub read_piece: usize,
    pub read_fail: Vec<u64>,
    pub status: Option<u8>,
    pub out: Stream,
    pub err: Stream,
    pub part: Part,
}

impl Case {
    ghost use Rattle.std.specs.Prelude.{◌≡◌, [], None};

    /// A run without words and files, over files and sinks that don't fail.
    pub fn new(alloc: Global) -> Self
        ensures words { result.words.items ≡ [] }
        ensures files { result.files.items ≡ [] }
        ensures status { result.status ≡ None }
    {
        Case {
            words: Vec::new(alloc),
            files: Vec::new(alloc),
            read_piece: 65_536,
            read_fail: Vec::new(alloc),
            status: None,
            out: Stream::new(alloc),
            err: Stream::new(alloc),
            part: Part::Closed,
        }
    }
}

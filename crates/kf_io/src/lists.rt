ghost use Rattle.std.specs.Prelude.{◌≡◌, ℕ, List, string_bytes};

use std::marker::Model;

/// The name of a file.
#[derive(Drop)]
pub struct FileName {
    text: String,
}

impl Model for FileName {
    ghost Value = { List ℕ };

    ghost view = { λ n. string_bytes n.text };
}

impl FileName {
    pub fn new(text: String) -> Self
        ensures { result ≡ string_bytes text }
    {
        FileName { text }
    }

    pub fn as_str(&self) -> &str
        ensures { result.now ≡ self.now }
    {
        self.text.as_str()
    }
}

/// The bytes of a file.
#[derive(Drop)]
pub struct ByteList {
    items: Vec<u8>,
}

impl Model for ByteList {
    ghost Value = { List ℕ };

    ghost view = { λ l. l.items.items };
}

impl ByteList {
    pub fn new(items: Vec<u8>) -> Self
        ensures { result ≡ items.items }
    {
        ByteList { items }
    }

    pub fn as_slice(&self) -> &[u8]
        ensures { result.now ≡ self.now }
    {
        self.items.as_slice()
    }
}

/// Numbers of calls, which count from 0.
#[derive(Drop)]
pub struct CallList {
    items: Vec<u64>,
}

impl Model for CallList {
    ghost Value = { List ℕ };

    ghost view = { λ l. l.items.items };
}

impl CallList {
    pub fn new(items: Vec<u64>) -> Self
        ensures { result ≡ items.items }
    {
        CallList { items }
    }

    pub fn as_slice(&self) -> &[u64]
        ensures { result.now ≡ self.now }
    {
        self.items.as_slice()
    }
}

/// A file in memory.
#[derive(Drop)]
pub struct FileEntry {
    pub name: FileName,
    pub bytes: ByteList,
}

/// Files in memory. Where several have one name, the first of them is the file of that name.
#[derive(Drop)]
pub struct FileList {
    items: Vec<FileEntry>,
}

impl Model for FileList {
    ghost use Rattle.std.specs.Prelude.{List};
    ghost use Rattle.kf_io.specs.declared.lists.FileEntry.{FileEntry};

    ghost Value = { List FileEntry };

    ghost view = { λ l. l.items.items };
}

impl FileList {
    pub fn new(items: Vec<FileEntry>) -> Self
        ensures { result ≡ items.items }
    {
        FileList { items }
    }

    pub fn as_slice(&self) -> &[FileEntry]
        ensures { result.now ≡ self.now }
    {
        self.items.as_slice()
    }
}

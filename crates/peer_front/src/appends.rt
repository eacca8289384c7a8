//! Files that lines are appended to.
//!
//! The calls name no type of a runtime's own, so any thread may make them, and not the first one alone.

use std::fs::{File, Metadata, OpenOptions};
use std::os::unix::fs::MetadataExt;
use std::{fs, io};

/// Which file of the system it is.
#[derive(Clone, Copy, PartialEq, Eq)]
pub struct FileId {
    device: u64,
    inode: u64,
}

impl FileId {
    /// That of the file with this metadata.
    pub fn of(metadata: &Metadata) -> FileId {
        FileId {
            device: metadata.dev(),
            inode: metadata.ino(),
        }
    }
}

/// A runtime with files that lines are appended to.
pub trait Appends {
    /// A file at this path, to whose end is written. It is made if there is none.
    fn append(&self, path: &str) -> io::Result<File>;

    /// Which file is at this path.
    fn file_at(&self, path: &str) -> io::Result<FileId>;
}

impl Appends for HostRuntime {
    fn append(&self, path: &str) -> io::Result<File> {
        let mut how = OpenOptions::new();
        how.append(true);
        how.create(true);
        how.open(self, path)
    }

    fn file_at(&self, path: &str) -> io::Result<FileId> {
        let metadata = fs::metadata(self, path)?;
        Ok(FileId::of(&metadata))
    }
}

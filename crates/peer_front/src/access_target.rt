//! Where the lines of an access log go.

use crate::appends::{Appends, FileId};
use std::fs::File;
use std::io;
use std::io::{ErrorKind, Write};

/// A file that is appended to.
#[derive(Drop)]
pub struct AccessFile<'a> {
    path: &'a str,
    file: File,
    id: FileId,
}

/// Where the lines go.
#[derive(Drop)]
pub enum AccessTarget<'a> {
    Output,
    File(AccessFile<'a>),
}

/// How many bytes were written until a write failed, and why it did.
#[derive(Drop)]
pub struct Unwritten {
    pub written: usize,
    pub error: io::Error,
}

// Writes all bytes, unless a write fails.
fn write_whole<W: Write>(writer: &mut W, bytes: &[u8]) -> Result<(), Unwritten> {
    let mut written = 0usize;
    for _ in 0..u64::MAX {
        let Some(rest) = bytes.get(written..) else {
            return Ok(());
        };
        if rest.is_empty() {
            return Ok(());
        }
        match writer.write(rest) {
            Ok(0) => {
                let error = io::Error::from(ErrorKind::WriteZero);
                return Err(Unwritten { written, error });
            }
            Ok(n) => written = written.saturating_add(n),
            Err(error) if error.kind() == ErrorKind::Interrupted => {}
            Err(error) => return Err(Unwritten { written, error }),
        }
    }
    Ok(())
}

impl<'a> AccessFile<'a> {
    // The file at a path, which is made if there is none.
    fn open<H: Appends>(rt: &H, path: &'a str) -> io::Result<AccessFile<'a>> {
        let file = rt.append(path)?;
        let id = FileId::of(&file.metadata()?);
        Ok(AccessFile { path, file, id })
    }

    // Whether another file is at its path by now, or none.
    fn is_moved<H: Appends>(&self, rt: &H) -> bool {
        match rt.file_at(self.path) {
            Ok(id) => id != self.id,
            Err(_) => true,
        }
    }

    // Opens the file at its path if that is another one by now. One that cannot be opened leaves the old one.
    fn follow<H: Appends>(&mut self, rt: &H) -> io::Result<()> {
        if self.is_moved(rt) {
            *self = AccessFile::open(rt, self.path)?;
        }
        Ok(())
    }
}

impl<'a> AccessTarget<'a> {
    /// The file at a path, or standard output for `-`.
    pub fn open<H: Appends>(rt: &H, path: &'a str) -> io::Result<AccessTarget<'a>> {
        if path == "-" {
            return Ok(AccessTarget::Output);
        }
        let file = AccessFile::open(rt, path)?;
        Ok(AccessTarget::File(file))
    }

    /// Opens the file at its path if another one is there by now, or none.
    pub fn follow<H: Appends>(&mut self, rt: &H) -> io::Result<()> {
        match self {
            AccessTarget::Output => Ok(()),
            AccessTarget::File(file) => file.follow(rt),
        }
    }

    /// Writes whole lines by one call, unless the system takes less.
    pub fn write<H: Print>(&mut self, rt: &H, bytes: &[u8]) -> Result<(), Unwritten> {
        match self {
            AccessTarget::Output => write_whole(&mut io::writer(rt), bytes),
            AccessTarget::File(file) => write_whole(&mut file.file, bytes),
        }
    }
}

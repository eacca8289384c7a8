//! The table that is served.

use crate::exit::{BAD_TABLE, BAD_WORD, Exit, OUT_OF_MEMORY, READ_FAILED, SPENT};
use peer_table::{TABLE_READS, TableFault, TableSource};
use peer_view::StdReader;
use std::alloc::Global;
use std::fs::Files;
use std::{fs, io};
use thiserror::Error;

/// Why no table could be read.
#[derive(Debug, Drop, Error)]
pub enum NoTable {
    #[error("{0}")]
    Open(io::Error),
    #[error("read failed")]
    Read,
    #[error("too many reads")]
    Spent,
    #[error("bad table at line {0}: not three fields or no end of line")]
    Line(usize),
    #[error("bad table at line {0}: group and key stood before")]
    Repeated(usize),
    #[error("bad table at line {0}: the 65th group")]
    Groups(usize),
    #[error("bad table at line {0}: the value is over 1 MiB")]
    Value(usize),
    #[error("table too large")]
    TooLarge,
    #[error("out of memory")]
    Memory,
}

impl NoTable {
    /// How the program ends.
    pub fn exit(&self) -> Exit {
        match self {
            NoTable::Open(_) => BAD_WORD,
            NoTable::Line(_) | NoTable::Repeated(_) | NoTable::Groups(_) | NoTable::Value(_) =>
                BAD_TABLE,
            NoTable::TooLarge => BAD_TABLE,
            NoTable::Read => READ_FAILED,
            NoTable::Memory => OUT_OF_MEMORY,
            NoTable::Spent => SPENT,
        }
    }
}

// What a fault of a table is for the program.
fn no_table(fault: &TableFault) -> NoTable {
    match fault {
        TableFault::ReadFault => NoTable::Read,
        TableFault::Spent => NoTable::Spent,
        TableFault::TooLarge => NoTable::TooLarge,
        TableFault::Line(n) => NoTable::Line(*n),
        TableFault::Repeated(n) => NoTable::Repeated(*n),
        TableFault::Groups(n) => NoTable::Groups(*n),
        TableFault::Value(n) => NoTable::Value(*n),
        TableFault::Memory => NoTable::Memory,
    }
}

/// Reads the table of a file.
pub fn read_table<H: Files>(rt: &H, alloc: Global, path: &str) -> Result<TableSource, NoTable> {
    let file = match fs::open(rt, path) {
        Ok(file) => file,
        Err(error) => return Err(NoTable::Open(error)),
    };
    match TableSource::read_from(alloc, &mut StdReader::new(file), TABLE_READS) {
        Ok(table) => Ok(table),
        Err(fault) => Err(no_table(&fault)),
    }
}

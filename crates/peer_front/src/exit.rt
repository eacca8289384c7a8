//! How the program ends.

use std::fmt::Display;
use std::io;
use std::process::ExitCode;

/// How the program ends.
#[derive(Clone, Copy, Debug, PartialEq, Eq)]
pub struct Exit {
    pub status: u8,
}

/// Where what was asked for was done.
pub const DONE: Exit = Exit { status: 0 };

/// Where a word cannot be used, or no file of its name can be opened.
pub const BAD_WORD: Exit = Exit { status: 1 };

/// Where the address cannot be bound.
pub const CANNOT_BIND: Exit = Exit { status: 2 };

/// Where a line of the table is wrong, or the table is too large.
pub const BAD_TABLE: Exit = Exit { status: 2 };

/// Where a read of the table fails.
pub const READ_FAILED: Exit = Exit { status: 3 };

/// Where standard output fails.
pub const NO_OUTPUT: Exit = Exit { status: 4 };

/// Where memory, a thread or a descriptor was refused.
pub const OUT_OF_MEMORY: Exit = Exit { status: 5 };

/// Where the last read of the table was made that there is.
pub const SPENT: Exit = Exit { status: 6 };

/// Where the system gives no random seed for the caches, so that clients could choose keys that collide.
pub const NO_SEED: Exit = Exit { status: 7 };

impl Exit {
    /// The status as the system takes it.
    pub fn code(self) -> ExitCode {
        ExitCode::from(self.status)
    }
}

/// Says on standard error why the program ends, and how.
pub fn refuse<H: AllocGlobal + Eprint, T: Display>(rt: &H, why: &T, exit: Exit) -> Exit {
    let _ = eprintln!(rt; "peer_front: {why}");
    exit
}

/// Says that standard output failed.
pub fn no_output<H: AllocGlobal + Eprint>(rt: &H, error: &io::Error) -> Exit {
    let _ = eprintln!(rt; "peer_front: standard output: {error}");
    NO_OUTPUT
}

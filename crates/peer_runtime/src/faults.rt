//! What a call of a stream that fails says.

use std::io;
use std::io::ErrorKind;

// errno(3): ENFILE, of the whole system, and EMFILE, of the process.
const TOO_MANY_OPEN_FILES: [i32; 2] = [23, 24];

/// Whether the process, or the whole system, may open no more files.
pub fn lacks_files(error: &io::Error) -> bool {
    match error.raw_os_error() {
        Some(number) => TOO_MANY_OPEN_FILES.contains(&number),
        None => false,
    }
}

/// Whether a call of a stream would have to wait.
pub fn would_block(error: &io::Error) -> bool {
    error.kind() == ErrorKind::WouldBlock
}

/// Whether a call of a stream was interrupted, and is to be made again.
pub fn was_interrupted(error: &io::Error) -> bool {
    error.kind() == ErrorKind::Interrupted
}

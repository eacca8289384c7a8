//! Words that cannot be used.

use thiserror::Error;

/// Why a word cannot be used.
#[derive(Clone, Copy, Debug, PartialEq, Eq, Error)]
pub enum WordFault {
    #[error("a number from {0} to {1} is needed")]
    Number(u64, u64),
    #[error("a time from 1ms to 60m is needed, such as 500ms, 1.5s or 2m")]
    Time,
    #[error("a number of bytes is needed, or of KiB, MiB or GiB, such as 64MiB")]
    Size,
    #[error("a port, or an address and a port, is needed, such as :8001 or 127.0.0.1:8001")]
    Address,
    #[error("a port, or an address and a port, is needed, such as 9180 or 127.0.0.1:9180")]
    Page,
    #[error("text or json is needed")]
    Log,
}

/// A word that cannot be used, and the flag that it was given to, without its dashes.
#[derive(Clone, Copy, Debug, PartialEq, Eq, Error)]
#[error("--{flag} {word}: {fault}")]
pub struct BadWord<'w> {
    pub flag: &'w str,
    pub word: &'w str,
    pub fault: WordFault,
}

//! What the page tells beside what it tells of groups.

use crate::counts::Counts;

/// How much a server may have at one moment.
#[derive(Clone, Copy, Debug, PartialEq, Eq)]
pub struct ServerBounds {
    /// The connections that may be open.
    pub connections: u64,
    /// The values of services that may be under way, on all threads that fetch together.
    pub under_way: u64,
    /// The bytes that clients may have that they have not taken.
    pub untaken_bytes: u64,
}

/// The version of the program, and the logic of the toolchain that it is proved with.
#[derive(Clone, Copy, Debug, PartialEq, Eq)]
pub struct Build<'a> {
    pub version: &'a [u8],
    pub toolchain: &'a [u8],
}

/// What the system tells of the process.
#[derive(Clone, Copy, Debug, PartialEq, Eq)]
pub struct ProcessCounts {
    /// The hundredths of seconds that it took of processors.
    pub cpu_hundredths: u64,
    /// When it was started, in hundredths of seconds since 1970.
    pub start_hundredths: u64,
    pub resident_bytes: u64,
    pub virtual_bytes: u64,
    pub threads: u64,
    pub open_files: u64,
    /// The most files that it may open, none where their number has no bound.
    pub most_files: Option<u64>,
}

/// All numbers of the page but those of groups.
#[derive(Clone, Copy, Debug, PartialEq, Eq)]
pub struct Numbers {
    pub counts: Counts,
    pub bounds: ServerBounds,
    /// None where the system does not tell them.
    pub process: Option<ProcessCounts>,
    /// Whether clients are served.
    pub is_ready: bool,
    /// The seconds since the start.
    pub seconds: u64,
}

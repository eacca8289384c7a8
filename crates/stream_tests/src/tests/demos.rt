//! Runs of a connection over pools with the source for demonstrations, and over any pool with a reader and a writer in
//! memory.

use super::pooled::{Devices, Pooled, Setup, serve_pooled};
use super::runs::{READS, served, served_into};
use peer_conn::{End, Served};
use peer_fill::{Gate, NoGate};
use peer_source::{DemoSource, Source};
use peer_view::{MemReader, MemWriter};
use std::alloc::Global;
use std::process::Abort;
use std::sync::Wait;
use std::thread::Threads;

/// A pool of so many workers, without a gate.
pub fn demo(workers: usize, cache_bytes: u64) -> Setup<'static, DemoSource, NoGate> {
    Setup {
        source: DemoSource,
        cache_bytes,
        workers,
        gate: &NoGate,
    }
}

/// The device of a connection that fails: none, the reader behind its pieces, or the writer at a limit.
#[derive(Clone, Copy)]
pub enum Failing {
    Nothing,
    Reader,
    Writer(usize),
}

/// A connection in one thread whose reader gives these pieces, with so many reads. A writer that fails takes seven bytes a call.
pub fn alone(
    alloc: Global,
    pieces: Vec<Vec<u8>>,
    failing: Failing,
    reads: u64,
) -> Served<MemReader, MemWriter> {
    match failing {
        Failing::Nothing => served(alloc, pieces, false, reads),
        Failing::Reader => served(alloc, pieces, true, reads),
        Failing::Writer(limit) => served_into(alloc, pieces, limit, reads),
    }
}

/// A connection over a pool whose reader gives these pieces, with so many reads.
pub fn within<S: Source + Send + Sync, G: Gate + Sync>(
    rt: &(impl Abort + AllocGlobal + Threads + Wait + Sync),
    setup: Setup<'_, S, G>,
    pieces: Vec<Vec<u8>>,
    failing: Failing,
    reads: u64,
) -> Pooled<MemReader, MemWriter> {
    let (fails, limit) = match failing {
        Failing::Nothing => (false, None),
        Failing::Reader => (true, None),
        Failing::Writer(limit) => (false, Some(limit)),
    };
    let devices = Devices {
        reader: MemReader::new(pieces, fails),
        writer: MemWriter::new(rt.alloc(), 65_536, limit),
        reads,
    };
    serve_pooled(rt, setup, devices)
}

/// The same with more reads than are needed.
pub fn over_pieces<S: Source + Send + Sync, G: Gate + Sync>(
    rt: &(impl Abort + AllocGlobal + Threads + Wait + Sync),
    setup: Setup<'_, S, G>,
    pieces: Vec<Vec<u8>>,
    failing: Failing,
) -> Pooled<MemReader, MemWriter> {
    within(rt, setup, pieces, failing, READS)
}

/// Whether a connection wrote these bytes, and ended so.
pub fn is_told(served: &Served<MemReader, MemWriter>, replies: &[u8], end: End) -> bool {
    served.end == end && served.writer.taken() == replies
}

/// Whether a connection over a pool, whose reader gives these pieces, writes these bytes and ends so.
pub fn is_served_over(
    rt: &(impl Abort + AllocGlobal + Threads + Wait + Sync),
    setup: Setup<'_, DemoSource, NoGate>,
    pieces: Vec<Vec<u8>>,
    failing: Failing,
    told: (&[u8], End),
) -> bool {
    let run = over_pieces(rt, setup, pieces, failing);
    let (replies, end) = told;
    is_told(&run.served, replies, end)
}

//! Runs of a connection over texts cut into pieces. They end the test where memory or a thread is refused.
ghost use Rattle.std.specs.Prelude.{◌≤◌, length};

use super::demos::{Failing, demo, is_served_over};
use peer_conn::{End, Served, serve_serial, serve_told};
use peer_source::DemoSource;
use peer_view::{MemReader, MemWriter};
use std::alloc::Global;
use std::process::Abort;
use std::sync::Wait;
use std::thread::Threads;
use stream_model::{Then, Told, reply, request};

/// More reads than any text here needs.
pub const READS: u64 = 1_000_000;

// Texts up to this length are cut in two at every place, and into their bytes.
const SHORT: usize = 400;

/// Adds a piece with these bytes.
pub fn add_piece(rt: &(impl Abort + AllocGlobal), pieces: &mut Vec<Vec<u8>>, bytes: &[u8]) {
    let piece = bytes.to_vec(rt.alloc()).expect(rt, "memory");
    pieces.push(piece).expect(rt, "memory");
}

/// A text in one piece.
pub fn whole(rt: &(impl Abort + AllocGlobal), text: &[u8]) -> Vec<Vec<u8>> {
    let mut pieces = Vec::new(rt.alloc());
    add_piece(rt, &mut pieces, text);
    pieces
}

/// A text in two pieces.
pub fn halves(rt: &(impl Abort + AllocGlobal), text: &[u8], at: usize) -> Vec<Vec<u8>>
    requires { at ≤ length text.now }
{
    let mut pieces = Vec::new(rt.alloc());
    add_piece(rt, &mut pieces, &text[..at]);
    add_piece(rt, &mut pieces, &text[at..]);
    pieces
}

/// A text in pieces of so many bytes, or of one.
pub fn cut(rt: &(impl Abort + AllocGlobal), text: &[u8], size: usize) -> Vec<Vec<u8>> {
    let mut pieces = Vec::new(rt.alloc());
    for piece in text.chunks(size.max(1)) {
        add_piece(rt, &mut pieces, piece);
    }
    pieces
}

/// A text byte by byte.
pub fn by_bytes(rt: &(impl Abort + AllocGlobal), text: &[u8]) -> Vec<Vec<u8>> {
    cut(rt, text, 1)
}

/// A connection over the source for demonstrations, whose reader gives these pieces and then fails or tells its end.
pub fn served(
    alloc: Global,
    pieces: Vec<Vec<u8>>,
    fails: bool,
    reads: u64,
) -> Served<MemReader, MemWriter> {
    serve_told(
        alloc,
        &DemoSource,
        MemReader::new(pieces, fails),
        MemWriter::new(alloc, 65_536, None),
        reads,
    )
}

/// The same with a writer that takes seven bytes a call, and fails at a limit.
pub fn served_into(
    alloc: Global,
    pieces: Vec<Vec<u8>>,
    limit: usize,
    reads: u64,
) -> Served<MemReader, MemWriter> {
    serve_serial(
        alloc,
        &DemoSource,
        MemReader::new(pieces, false),
        MemWriter::new(alloc, 7, Some(limit)),
        reads,
    )
}

/// Demands these bytes and this end for the pieces.
pub fn demand(rt: &(impl Abort + AllocGlobal), pieces: Vec<Vec<u8>>, replies: &[u8], end: End) {
    let served = served(rt.alloc(), pieces, false, READS);
    assert_eq!(rt; served.end, end);
    assert_eq!(rt; served.writer.taken(), replies);
}

// The workers of pools, and the bytes of their caches: for a text in one piece, and for the same in small ones.
const POOLS: [(usize, u64, u64); 3] = [(1, 0, 1_048_576), (2, 4, 0), (16, 1_048_576, 4)];

// Whether each pool answers a text so, in one piece and in pieces of so many bytes.
fn is_served_by_pools(
    rt: &(impl Abort + AllocGlobal + Threads + Wait + Sync),
    text: &[u8],
    size: usize,
    told: (&[u8], End),
) -> bool {
    let mut same = true;
    for (workers, in_one, in_many) in POOLS {
        let setup = demo(workers, in_one);
        same &= is_served_over(rt, setup, whole(rt, text), Failing::Nothing, told);
        let setup = demo(workers, in_many);
        same &= is_served_over(rt, setup, cut(rt, text, size), Failing::Nothing, told);
    }
    same
}

/// Demands these bytes and this end for a text in one thread: in one piece, in small ones, and of a short text in two pieces
/// at every place. And the same over pools, but for the two pieces. The small pieces of a short text are its bytes.
pub fn demand_all_ways(
    rt: &(impl Abort + AllocGlobal + Threads + Wait + Sync),
    text: &[u8],
    replies: &[u8],
    end: End,
) {
    let is_short = text.len() <= SHORT;
    let size = if is_short { 1 } else { 1000 };
    demand(rt, whole(rt, text), replies, end);
    demand(rt, cut(rt, text, size), replies, end);
    if is_short {
        for at in 0..text.len() {
            demand(rt, halves(rt, text, at), replies, end);
        }
    }
    assert!(rt;
        is_served_by_pools(rt, text, size, (replies, end)),
        "over pools"
    );
}

/// Demands for each text the replies beside it, and that its connection ends between two heads.
pub fn demand_each(
    rt: &(impl Abort + AllocGlobal + Threads + Wait + Sync),
    rows: &[(&[u8], &[u8])],
) {
    for (text, replies) in rows {
        demand_all_ways(rt, text, replies, End::Clean);
    }
}

/// Demands one reply, which does not close, for GET of a target.
pub fn demand_told(
    rt: &(impl Abort + AllocGlobal + Threads + Wait + Sync),
    target: &str,
    told: Told<'_>,
) {
    let text = request(rt.alloc(), target).expect(rt, "memory");
    let replies = reply(rt.alloc(), Then::Stays, told).expect(rt, "memory");
    demand_all_ways(rt, &text, &replies, End::Clean);
}

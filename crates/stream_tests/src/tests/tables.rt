//! Tables as sources: the same bytes by one thread and over a pool.
ghost use Rattle.std.specs.Prelude.{◌≡◌};

use super::demos::{Failing, is_told, over_pieces};
use super::pooled::Setup;
use super::runs::{READS, whole};
use peer_conn::{End, serve_functional, serve_serial};
use peer_fill::NoGate;
use peer_table::{NamedTable, TableSource, TableText};
use peer_view::{MemReader, MemWriter};
use std::alloc::Global;
use std::marker::Brand;
use std::process::Abort;
use stream_model::{Then, Told, add_reply, add_request};

const LINES: &[u8] = b"a\tk\tone\na\tj\t\nb\tk\ttwo\n";

// GET of each key, of one that is missing and of a group that is missing.
const TARGETS: [&str; 5] = [
    "/_groupcache/a/k",
    "/_groupcache/a/j",
    "/_groupcache/b/k",
    "/_groupcache/b/j",
    "/_groupcache/c/k",
];

// What is told of each.
const TOLD: [Told<'static>; 5] = [
    Told::Value(b"\x0A\x03one"),
    Told::Value(b"\x0A\x00"),
    Told::Value(b"\x0A\x03two"),
    Told::Text("500 Internal Server Error", b"no such key"),
    Told::Text("404 Not Found", b"no such group: c"),
];

// The table of the three lines.
fn table(rt: &(impl Abort + AllocGlobal)) -> TableSource {
    let mut reader = MemReader::new(whole(rt, LINES), false);
    let read = TableSource::read_from(rt.alloc(), &mut reader, 10);
    read.ok().expect(rt, "a table")
}

// The requests in one piece.
fn pieces(rt: &(impl Abort + AllocGlobal)) -> Vec<Vec<u8>> {
    let mut text = Vec::new(rt.alloc());
    for target in TARGETS {
        add_request(&mut text, target).expect(rt, "memory");
    }
    whole(rt, &text)
}

// The replies.
fn replies(rt: &(impl Abort + AllocGlobal)) -> Vec<u8> {
    let mut text = Vec::new(rt.alloc());
    for told in TOLD {
        add_reply(rt.alloc(), &mut text, Then::Stays, told).expect(rt, "memory");
    }
    text
}

// Whether one thread writes these bytes.
fn is_written_by_one(
    alloc: Global,
    table: &TableSource,
    pieces: Vec<Vec<u8>>,
    replies: &[u8],
) -> bool {
    let reader = MemReader::new(pieces, false);
    let writer = MemWriter::new(alloc, 4096, None);
    let served = serve_serial(alloc, table, reader, writer, READS);
    is_told(&served, replies, End::Clean)
}

// The same of a table under the name of its text, so that the contract of the call says which bytes are written.
fn is_written_by_name<T: TableText + Send + Sync>(
    alloc: Global,
    table: TableSource,
    pieces: Vec<Vec<u8>>,
    replies: &[u8],
) -> bool
    requires { table ≡ T.text }
{
    let table = NamedTable::<T>::new(table);
    let reader = MemReader::new(pieces, false);
    let writer = MemWriter::new(alloc, 4096, None);
    let served = serve_functional(alloc, &table, reader, writer, READS);
    is_told(&served, replies, End::Clean)
}

#[test]
fn a_table_is_answered_by_its_lines(rt: HostRuntime) {
    assert!(rt; is_written_by_one(rt.alloc(), &table(&rt), pieces(&rt), &replies(&rt)));
}

#[test]
fn a_named_table_is_answered_by_its_lines(rt: HostRuntime) {
    let table = table(&rt);
    assert!(rt; is_written_by_name::<Brand>(rt.alloc(), table, pieces(&rt), &replies(&rt)));
}

#[test]
fn a_table_is_answered_over_a_pool(rt: HostRuntime) {
    let setup = Setup {
        source: table(&rt),
        cache_bytes: 1_048_576,
        workers: 2,
        gate: &NoGate,
    };
    let run = over_pieces(&rt, setup, pieces(&rt), Failing::Nothing);
    assert!(rt; is_told(&run.served, &replies(&rt), End::Clean));
}

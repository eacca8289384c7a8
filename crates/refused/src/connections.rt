//! Connections in one thread, and over a pool whose worker is a thread.
ghost use Rattle.std.specs.Prelude.{◌≡◌, IfSome};
ghost use Rattle.peer_fill.specs.Pools.{IsConnSeatOf};
ghost use Rattle.refused.specs.Lent.{AreOf};

use crate::heads::reader_of;
use crate::lent::{Demo, DemoSeats, Lent, LentSeats};
use crate::seen::Seen;
use crate::window;
use peer_conn::{End, Served, serve_connection, serve_functional, serve_serial};
use peer_fill::ConnSeat;
use peer_source::{DemoSource, Source};
use peer_view::{MemReader, MemWriter};
use std::alloc::Global;
use std::sync::Wait;
use std::sync::ledger::Ledger;
use std::thread::Threads;
use test_support::beside_worker;

/// Three requests of 45 bytes.
pub const THREE: &[u8] =
    b"GET /_groupcache/echo/a HTTP/1.1\r\nHost: h\r\n\r\nGET /_groupcache/echo/b HTTP/1.1\r\nHost: h\r\n\r\n\
    GET /_groupcache/echo/c HTTP/1.1\r\nHost: h\r\n\r\n";

/// Their replies, of 79 bytes each.
pub const THREE_REPLIES: &[u8] =
    b"HTTP/1.1 200 OK\r\nContent-Type: application/x-protobuf\r\nContent-Length: 3\r\n\r\n\x0A\x01a\
    HTTP/1.1 200 OK\r\nContent-Type: application/x-protobuf\r\nContent-Length: 3\r\n\r\n\x0A\x01b\
    HTTP/1.1 200 OK\r\nContent-Type: application/x-protobuf\r\nContent-Length: 3\r\n\r\n\x0A\x01c";

/// The first of them.
pub const FIRST_REPLY: &[u8] =
    b"HTTP/1.1 200 OK\r\nContent-Type: application/x-protobuf\r\nContent-Length: 3\r\n\r\n\x0A\x01a";

// How many bytes each reply has.
const REPLY: usize = 79;

// How many reads are made at most.
const READS: u64 = 1000;

/// Whether this is a number of whole replies to the three requests.
pub fn is_whole(taken: &[u8]) -> bool {
    THREE_REPLIES.starts_with(taken) && taken.len() % REPLY == 0
}

// What a connection with three requests was seen to do.
fn ended(served: &Served<MemReader, MemWriter>) -> Seen {
    let taken = served.writer.taken();
    match served.end {
        End::Clean => Seen::Answered.only_if(taken == THREE_REPLIES, "clean without all replies"),
        End::Memory => Seen::Refused.only_if(is_whole(taken), "not a number of whole replies"),
        End::WriteFault => Seen::Refused.only_if(
            THREE_REPLIES.starts_with(taken),
            "no beginning of the replies",
        ),
        _ => Seen::Wrong("another end"),
    }
}

/// A call that serves in one thread.
#[derive(Clone, Copy)]
pub enum Alone {
    Serial,
    /// All of the program on standard input and output.
    Functional,
}

/// `serve_serial` or `serve_functional`.
pub fn in_one_thread(alloc: Global, call: Alone) -> Option<Seen> {
    let reader = reader_of(alloc, THREE)?;
    let writer = MemWriter::new(alloc, 65_536, None);
    window::begin(alloc);
    let served = match call {
        Alone::Serial => serve_serial(alloc, &DemoSource, reader, writer, READS),
        Alone::Functional => serve_functional(alloc, &DemoSource, reader, writer, READS),
    };
    window::end(alloc);
    Some(ended(&served))
}

// Serves what a reader gives over a pool, with growths counted.
fn serve_counted<S: Source + Send + Sync, L: Ledger + Send + Sync, H: Threads + Wait + Sync>(
    lent: &Lent<'_, S, L, H>,
    conn: ConnSeat<S, L>,
    reader: MemReader,
) -> (ConnSeat<S, L>, Served<MemReader, MemWriter>)
    requires conn { IsConnSeatOf lent.now.pool.now conn }
    requires reader { reader.calls ≡ 0 }
    ensures { IsConnSeatOf lent.now.pool.now result.0 }
{
    let (rt, alloc) = (lent.rt, lent.alloc);
    let writer = MemWriter::new(alloc, 65_536, None);
    window::begin(alloc);
    let (served, conn) = serve_connection(rt, alloc, lent.pool, conn, reader, writer, READS);
    window::end(alloc);
    (conn, served)
}

// Serves the three requests over a pool, beside its worker.
fn serve_beside<S: Source + Send + Sync, L: Ledger + Send + Sync, H: Threads + Wait + Sync>(
    lent: &Lent<'_, S, L, H>,
    seats: LentSeats<S, L>,
) -> Option<(LentSeats<S, L>, Served<MemReader, MemWriter>)>
    requires { AreOf lent.now.pool.now seats }
    ensures { IfSome result (λ done. AreOf lent.now.pool.now done.0) }
{
    let reader = reader_of(lent.alloc, THREE)?;
    let LentSeats { fill, conn } = seats;
    let serve = move || -> (ConnSeat<S, L>, Served<MemReader, MemWriter>)
        requires conn { IsConnSeatOf lent.now.pool.now conn }
        requires reader { reader.calls ≡ 0 }
        ensures { IsConnSeatOf lent.entry.now.pool.now result.0 }
    { serve_counted(lent, conn, reader) };
    let (fill, (conn, served)) = beside_worker(lent.rt, lent.alloc, lent.pool, fill, serve)?;
    Some((LentSeats { fill, conn }, served))
}

/// `serve_connection`, beside a worker.
pub fn connection<L: Ledger + Send + Sync, H: Threads + Wait + Sync>(
    lent: &Demo<'_, L, H>,
    seats: DemoSeats<L>,
) -> Option<(DemoSeats<L>, Seen)>
    requires { AreOf lent.now.pool.now seats }
    ensures { IfSome result (λ done. AreOf lent.now.pool.now done.0) }
{
    let (seats, served) = serve_beside(lent, seats)?;
    Some((seats, ended(&served)))
}

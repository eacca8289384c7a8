//! One connection.
ghost use Rattle.std.specs.Prelude.{◌≡◌, IfOk};

use crate::exit::{Exit, exit_of};
use crate::pipe::peer_pipe;
use peer_conn::End;
use peer_view::{MemReader, MemWriter};
use std::alloc::{AllocError, Global};
use std::test::Fail;

// What Go's own client sends for the key `k` of the group `echo`.
const GO_REQUEST: &[u8] =
    b"GET /_groupcache/echo/k HTTP/1.1\r\nHost: 10.0.0.2:8000\r\nUser-Agent: Go-http-client/1.1\r\nAccept-Encoding: gzip\r\n\r\n";

// The reply with the value `k`.
const REPLY_K: &[u8] =
    b"HTTP/1.1 200 OK\r\nContent-Type: application/x-protobuf\r\nContent-Length: 3\r\n\r\n\x0A\x01k";

// A reader that gives these bytes in one piece, and then tells its end.
fn reader_of(alloc: Global, bytes: &[u8]) -> Result<MemReader, AllocError>
    ensures { IfOk result (λ r. r.calls ≡ 0) }
{
    let mut pieces = Vec::new(alloc);
    pieces.push(bytes.to_vec(alloc)?)?;
    Ok(MemReader::new(pieces, false))
}

#[test]
fn a_pipe_answers_what_go_sends_until_its_writer_fails(rt: HostRuntime) -> Result<(), Fail> {
    let alloc = rt.alloc();
    for (fails_behind, end, taken) in [
        (None, End::Clean, REPLY_K),
        (Some(10), End::WriteFault, b"HTTP/1.1 2".as_slice()),
    ] {
        let reader = reader_of(alloc, GO_REQUEST)?;
        let served = peer_pipe(alloc, reader, MemWriter::new(alloc, 4096, fails_behind));
        assert_eq!(rt; (served.end, served.writer.taken()), (end, taken));
    }
    Ok(())
}

#[test]
fn tells_each_end(rt: HostRuntime) {
    for (end, status, line) in [
        (End::Clean, 0, None),
        (End::Cut, 2, Some("peer_serve: input ended inside a head")),
        (End::ReadFault, 3, Some("peer_serve: read failed")),
        (End::WriteFault, 4, Some("peer_serve: write failed")),
        (End::Memory, 5, Some("peer_serve: out of memory")),
        (End::Worn, 5, Some("peer_serve: out of memory")),
        (End::Spent, 6, Some("peer_serve: too many reads")),
    ] {
        assert_eq!(rt; exit_of(&end), Exit { status, line });
    }
}

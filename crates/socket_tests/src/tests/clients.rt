//! Clients of a server in the same process.

use super::calls::FOUND_SLOW;
use std::alloc::Global;
use std::io::{Read, Write};
use std::net::{Net, Shutdown, SocketAddr, TcpListener, TcpStream};
use std::sync::Wait;
use std::thread;
use std::time::{Clock, Duration};
use stream_model::{ASK_K, ASK_K_LAST, FOUND_K, FOUND_K_LAST};

/// How many seconds a client waits at most for a server that hangs.
const PATIENCE: u64 = 30;

/// A client that is connected.
pub fn connect<H: AllocGlobal + Net<Listener = TcpListener, Stream = TcpStream> + Wait + Clock>(
    rt: &H,
    address: SocketAddr,
) -> Option<TcpStream> {
    let stream = TcpStream::connect(rt, address).ok()?;
    let patience = Some(Duration::from_secs(PATIENCE));
    stream.set_read_timeout(patience).ok()?;
    stream.set_write_timeout(patience).ok()?;
    Some(stream)
}

/// Sends all the bytes, and says whether that went well.
pub fn send(stream: &TcpStream, bytes: &[u8]) -> bool {
    let mut stream = stream;
    stream.write_all(bytes).is_ok()
}

/// What comes until the server ends, or none where it does not end well in time.
pub fn receive(alloc: Global, stream: &TcpStream) -> Option<Vec<u8>> {
    let mut stream = stream;
    let mut bytes = Vec::new(alloc);
    stream.read_to_end(&mut bytes).ok()?;
    Some(bytes)
}

/// Whether exactly these bytes come until the server ends.
pub fn receives(alloc: Global, stream: &TcpStream, text: &[u8]) -> bool {
    is_text(&receive(alloc, stream), text)
}

/// What a client receives that sends these bytes.
pub fn exchange<H: AllocGlobal + Net<Listener = TcpListener, Stream = TcpStream> + Wait + Clock>(
    rt: &H,
    address: SocketAddr,
    bytes: &[u8],
) -> Option<Vec<u8>> {
    let stream = connect(rt, address)?;
    if !send(&stream, bytes) {
        return None;
    }
    receive(rt.alloc(), &stream)
}

/// What a client receives that sends these bytes and ends its side.
pub fn exchange_and_end<
    H: AllocGlobal + Net<Listener = TcpListener, Stream = TcpStream> + Wait + Clock,
>(rt: &H, address: SocketAddr, bytes: &[u8]) -> Option<Vec<u8>> {
    let stream = connect(rt, address)?;
    if !send(&stream, bytes) || stream.shutdown(Shutdown::Write).is_err() {
        return None;
    }
    receive(rt.alloc(), &stream)
}

/// Whether a client gets the reply to a request that it has sent.
pub fn has_reply(stream: &TcpStream) -> bool {
    let mut reader = stream;
    let mut reply = [0; 79];
    reader.read_exact(&mut reply).is_ok() && reply.as_slice() == FOUND_K
}

/// Whether a client gets the value of the key `slow`.
pub fn has_value(stream: &TcpStream) -> bool {
    let mut reader = stream;
    let mut reply = [0; 82];
    reader.read_exact(&mut reply).is_ok() && reply.as_slice() == FOUND_SLOW
}

/// Whether a client gets the reply to one request.
pub fn is_answered(stream: &TcpStream) -> bool {
    send(stream, ASK_K) && has_reply(stream)
}

/// A client that has asked once and has its reply.
pub fn served_client<
    H: AllocGlobal + Net<Listener = TcpListener, Stream = TcpStream> + Wait + Clock,
>(rt: &H, address: SocketAddr) -> Option<TcpStream> {
    let stream = connect(rt, address)?;
    if is_answered(&stream) {
        Some(stream)
    } else {
        None
    }
}

/// Whether a client gets the reply to its last request, and the end.
pub fn is_answered_last(alloc: Global, stream: &TcpStream) -> bool {
    send(stream, ASK_K_LAST) && receives(alloc, stream, FOUND_K_LAST)
}

/// Whether a client that asks for the key `k` of the group `echo` and closes gets its reply.
pub fn is_served<H: AllocGlobal + Net<Listener = TcpListener, Stream = TcpStream> + Wait + Clock>(
    rt: &H,
    address: SocketAddr,
) -> bool {
    is_text(&exchange(rt, address, ASK_K_LAST), FOUND_K_LAST)
}

/// Whether something is so within some seconds. It is looked at each millisecond.
pub fn is_soon<H: Clock, F: Fn() -> bool>(rt: &H, is_so: F) -> bool
    requires { F.IsAlwaysCallable is_so }
{
    for _ in 0..10_000 {
        if is_so() {
            return true;
        }
        thread::sleep(rt, Duration::from_millis(1));
    }
    false
}

/// Sends a byte at a time until the server is gone, and says whether it is before the last.
pub fn drips_in_vain<H: Clock>(rt: &H, stream: &TcpStream) -> bool {
    is_soon(rt, || !send(stream, b"G"))
}

/// Whether exactly these bytes were received.
pub fn is_text(received: &Option<Vec<u8>>, text: &[u8]) -> bool {
    match received {
        Some(bytes) => bytes.as_slice() == text,
        None => false,
    }
}

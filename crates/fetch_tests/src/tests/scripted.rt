//! A runtime whose connections give one reply to each read, whatever came on their streams, and say so.
ghost use Rattle.fetch_tests.specs.Scripts.{IsCopies};
ghost use Rattle.fetch_tests.specs.declared.tests.scripted.TheConstants.{REPLY};

use mio::net::TcpStream;
use peer_origin::Wires;
use peer_runtime::Wire;
use std::io;
use std::io::ErrorKind;
use std::net::{Net, SocketAddr, TcpListener, TcpStream as StdStream};
use std::sync::Wait;
use std::thread::Threads;
use std::time::{Clock, Duration};

const REPLY: &[u8] = b"HTTP/1.1 200 OK\r\ncontent-length: 6\r\n\r\nscript";

/// The system, but for what connections carry: each read gives the same reply.
#[derive(Drop)]
pub struct Scripted<R> {
    pub system: R,
}

impl<R: Net<Listener = TcpListener, Stream = StdStream>> Net for Scripted<R> {
    type Stream = StdStream;

    type Listener = TcpListener;

    fn bind(&self, addr: SocketAddr) -> io::Result<TcpListener> {
        self.system.bind(addr)
    }

    fn connect(&self, addr: SocketAddr) -> io::Result<StdStream> {
        self.system.connect(addr)
    }
}

impl<R: Wait> Wait for Scripted<R> {}

impl<R: Threads> Threads for Scripted<R> {}

impl<R: Clock> Clock for Scripted<R> {
    fn monotonic(&self) -> io::Result<Duration> {
        self.system.monotonic()
    }

    fn since_1970(&self) -> io::Result<Duration> {
        self.system.since_1970()
    }
}

impl<R> Wires for Scripted<R> {
    ghost carried = { λ sent came ended. IsCopies REPLY.now came };

    fn wire(&self, stream: TcpStream) -> Wire {
        Wire::new(stream)
    }

    fn begin(&self, wire: &mut Wire) {
        wire.begin();
    }

    fn write(&self, wire: &mut Wire, bytes: &[u8]) -> io::Result<usize> {
        wire.write(bytes)
    }

    fn read(&self, wire: &mut Wire, room: &mut [u8]) -> io::Result<usize> {
        let n = REPLY.len();
        if room.len() < n {
            return Err(io::Error::from(ErrorKind::WouldBlock));
        }
        room[..n].copy_from_slice(REPLY);
        wire.note_came(REPLY);
        Ok(n)
    }
}

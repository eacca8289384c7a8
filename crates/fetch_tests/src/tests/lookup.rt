//! Where the origins of the tests are: at an address, or at a name of two addresses, at the first of which nobody listens.
ghost use Rattle.std.specs.Prelude.{◌≤◌, IfOk, length};

use peer_origin::Endpoint;
use std::alloc::Global;
use std::io;
use std::io::ErrorKind;
use std::net::{IpAddr, Ipv4Addr, Net, SocketAddr, TcpListener, TcpStream};

/// The address at which the origins listen.
pub const LOOPBACK: &str = "127.0.0.1";

/// The name of two addresses. Origins listen at the second.
pub const TWO_ADDRESSES: &str = "two.test";

// What looks names up, and connects to nothing.
struct Lookup;

// An address of this machine.
fn address(last: u8, port: u16) -> SocketAddr {
    SocketAddr::new(IpAddr::V4(Ipv4Addr::new(127, 0, 0, last)), port)
}

impl Net for Lookup {
    type Stream = TcpStream;

    type Listener = TcpListener;

    fn bind(&self, _addr: SocketAddr) -> io::Result<TcpListener> {
        Err(io::Error::from(ErrorKind::Unsupported))
    }

    fn connect(&self, _addr: SocketAddr) -> io::Result<TcpStream> {
        Err(io::Error::from(ErrorKind::Unsupported))
    }

    fn lookup_host(&self, _host: &str, port: u16, found: &mut [SocketAddr]) -> io::Result<usize>
        ensures in_bounds { IfOk result (λ n. n ≤ length found.new) }
    {
        if found.len() < 2 {
            return Err(io::Error::from(ErrorKind::Unsupported));
        }
        found[0] = address(2, port);
        found[1] = address(1, port);
        Ok(2)
    }
}

/// The endpoint of the listener at a host, under the prefix `/v/` and what follows it.
pub fn endpoint_of(
    alloc: Global,
    listener: &TcpListener,
    host: &str,
    follows: &str,
) -> Option<Endpoint> {
    let port = listener.local_addr().ok()?.port();
    let url = format!(in alloc; "http://{host}:{port}/v/{follows}").ok()?;
    Endpoint::of_url(&Lookup, alloc, &url).ok()
}

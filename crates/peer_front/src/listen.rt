//! The listener at the address to serve.

use crate::exit::{CANNOT_BIND, Exit};
use peer_flags::{ListenAddress, Options};
use std::io;
use std::io::ErrorKind;
use std::net::{Ipv4Addr, Ipv6Addr, Net, TcpListener, ToSocketAddrs};

// A listener at the first of these addresses that can be had. Its backlog is the longest that the system allows, and not the
// 128 of std's: after a restart all clients come at once.
fn first_of<A: ToSocketAddrs, H: Net>(rt: &H, addresses: A) -> io::Result<TcpListener> {
    let mut refused = io::Error::from(ErrorKind::InvalidInput);
    for address in addresses.to_socket_addrs(rt)? {
        match mio::net::TcpListener::bind(rt, address) {
            Ok(listener) => return Ok(TcpListener::from(listener)),
            Err(error) => refused = error,
        }
    }
    Err(refused)
}

// A listener at every address of the machine: that of IPv6 takes clients of IPv4 too, and without IPv6 there is the other.
fn everywhere<H: Net>(rt: &H, port: u16) -> io::Result<TcpListener> {
    match first_of(rt, (Ipv6Addr::UNSPECIFIED, port)) {
        Ok(listener) => Ok(listener),
        Err(_) => first_of(rt, (Ipv4Addr::UNSPECIFIED, port)),
    }
}

/// A listener at the address to serve, or says why there is none.
pub fn listen<H: AllocGlobal + Eprint + Net>(
    rt: &H,
    options: &Options<'_>,
) -> Result<TcpListener, Exit> {
    let listener = match options.listen {
        ListenAddress::Everywhere(port) => everywhere(rt, port),
        ListenAddress::At(address) => first_of(rt, address),
    };
    match listener {
        Ok(listener) => Ok(listener),
        Err(error) => {
            let _ = eprintln!(rt; "peer_front: cannot serve {}: {error}", options.listen);
            Err(CANNOT_BIND)
        }
    }
}

//! The page of counters, where one is asked for.

use crate::exit::{CANNOT_BIND, Exit, OUT_OF_MEMORY, refuse};
use peer_flags::{Options, PageAddress};
use peer_stats::{StatsEnd, StatsServer, open_stats};
use std::hash::RandomState;
use std::io;
use std::net::{Ipv4Addr, Net, TcpListener, TcpStream};

/// A server of the page that listens, and how to end it.
#[derive(Drop)]
pub struct Page {
    pub server: StatsServer,
    pub end: StatsEnd,
}

// A listener at the address.
fn bind<H: Net<Listener = TcpListener, Stream = TcpStream>>(
    rt: &H,
    address: PageAddress<'_>,
) -> io::Result<TcpListener> {
    match address {
        PageAddress::Loopback(port) => TcpListener::bind(rt, (Ipv4Addr::LOCALHOST, port)),
        PageAddress::At(address) => TcpListener::bind(rt, address),
    }
}

/// The page that is asked for, if one is.
pub fn page_of<H: AllocGlobal + Eprint + Net<Listener = TcpListener, Stream = TcpStream>>(
    rt: &H,
    options: &Options<'_>,
    seed: RandomState,
) -> Result<Option<Page>, Exit> {
    let Some(address) = options.stats else {
        return Ok(None);
    };
    let listener = match bind(rt, address) {
        Ok(listener) => listener,
        Err(error) => {
            let _ = eprintln!(rt; "peer_front: cannot serve --stats {address}: {error}");
            return Err(CANNOT_BIND);
        }
    };
    let at = listener.local_addr();
    let Some((server, end)) = open_stats(rt, rt.alloc(), listener, seed) else {
        return Err(refuse(rt, &"out of memory or descriptors", OUT_OF_MEMORY));
    };
    let _ = match at {
        Ok(at) => eprintln!(rt; "peer_front: serves /metrics, /readyz and /healthz at {at}"),
        Err(_) => eprintln!(rt; "peer_front: serves /metrics, /readyz and /healthz at {address}"),
    };
    Ok(Some(Page { server, end }))
}

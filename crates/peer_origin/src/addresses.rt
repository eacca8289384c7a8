//! The addresses of an origin's host. Those of a name are looked up again while others connect to what was found last.

use crate::endpoint::EndpointFault;
use crate::look_up::{LookUp, look_up_of};
use peer_runtime::Network;
use peer_wait::lock;
use std::alloc::{AllocError, Global};
use std::io;
use std::io::ErrorKind;
use std::net::{IpAddr, Net, SocketAddr, TcpListener, TcpStream, ToSocketAddrs};
use std::sync::{Arc, Mutex, Wait};
use url::Host;

// A name, and the port at its addresses.
#[derive(Drop)]
struct Name {
    host: String,
    port: u16,
}

/// The addresses of a host that were found last: at least one.
#[derive(Drop)]
pub struct Addresses {
    // None where the host is an address.
    name: Option<Name>,
    found: Mutex<Arc<Vec<SocketAddr>, Global>>,
}

/// Whether a stream with these addresses is to itself, as may be where nobody listens at a port of this machine: TCP lets both
/// ends be one. The close of one in which a byte waits that nobody read is a reset, and so leaves the port free.
pub fn is_to_itself(own: io::Result<SocketAddr>, peer: SocketAddr) -> bool {
    match own {
        Ok(own) => own == peer,
        Err(_) => false,
    }
}

// Why a name was not looked up.
fn look_up_fault(error: io::Error) -> EndpointFault {
    match error.kind() {
        ErrorKind::OutOfMemory => EndpointFault::Memory,
        _ => EndpointFault::Host,
    }
}

impl Name {
    // Its addresses now, at least one.
    fn look_up<H: Net<Listener = TcpListener, Stream = TcpStream>>(
        &self,
        rt: &H,
        alloc: Global,
    ) -> Result<Arc<Vec<SocketAddr>, Global>, EndpointFault> {
        let mut addresses = Vec::new(alloc);
        let found = (self.host.as_str(), self.port)
            .to_socket_addrs(rt)
            .map_err(look_up_fault)?;
        for address in found {
            addresses.push(address).map_err(|_| EndpointFault::Memory)?;
        }
        if addresses.is_empty() {
            return Err(EndpointFault::Host);
        }
        Arc::new(alloc, addresses).map_err(|_| EndpointFault::Memory)
    }
}

impl Addresses {
    // One address, which no name stands for.
    fn of_address(alloc: Global, ip: IpAddr, port: u16) -> Result<Addresses, EndpointFault> {
        let mut addresses = Vec::new(alloc);
        addresses
            .push(SocketAddr::new(ip, port))
            .map_err(|_| EndpointFault::Memory)?;
        let found = Arc::new(alloc, addresses).map_err(|_| EndpointFault::Memory)?;
        Ok(Addresses {
            name: None,
            found: Mutex::new(found),
        })
    }

    // The addresses of a name, which is looked up.
    fn of_name<H: Net<Listener = TcpListener, Stream = TcpStream>>(
        rt: &H,
        alloc: Global,
        host: &str,
        port: u16,
    ) -> Result<Addresses, EndpointFault> {
        let host = host.to_string(alloc).map_err(|_| EndpointFault::Memory)?;
        let name = Name { host, port };
        let found = name.look_up(rt, alloc)?;
        Ok(Addresses {
            name: Some(name),
            found: Mutex::new(found),
        })
    }

    /// The addresses of a host. A name is looked up.
    pub(crate) fn of<H: Net<Listener = TcpListener, Stream = TcpStream>>(
        rt: &H,
        alloc: Global,
        host: Host<&str>,
        port: u16,
    ) -> Result<Addresses, EndpointFault> {
        match host {
            Host::Ipv4(ip) => Addresses::of_address(alloc, IpAddr::V4(ip), port),
            Host::Ipv6(ip) => Addresses::of_address(alloc, IpAddr::V6(ip), port),
            Host::Domain(name) => Addresses::of_name(rt, alloc, name, port),
        }
    }

    /// Whether they are those of a name, which may get others.
    pub fn has_name(&self) -> bool {
        self.name.is_some()
    }

    /// Those that were found last, in the order in which they are tried. They stay as they are where others are found later.
    pub fn found<H: Wait>(&self, rt: &H) -> Result<Arc<Vec<SocketAddr>, Global>, AllocError> {
        Arc::try_clone(&*lock(rt, &self.found))
    }

    /// Looks the name up again, and says what that came to. Where nothing is found, or memory is refused, the addresses stay.
    pub fn look_up_again<H: Network>(&self, rt: &H, alloc: Global) -> LookUp {
        let Some(name) = &self.name else {
            return LookUp::Same;
        };
        let Ok(before) = self.found(rt) else {
            return LookUp::Failed;
        };
        if let Ok(found) = name.look_up(rt, alloc) {
            let came_to = look_up_of(found.as_slice(), before.as_slice());
            *lock(rt, &self.found) = found;
            return came_to;
        }
        LookUp::Failed
    }
}

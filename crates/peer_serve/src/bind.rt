//! The address that the program serves.
ghost use Rattle.std.specs.Prelude.{IfErr, codes};
ghost use Rattle.peer_serve.specs.Exits.{Says};

use crate::exit::{CANNOT_BIND, Exit};
use std::net::{Net, TcpListener, TcpStream};

/// Listens on an address, or says how a program ends that cannot.
pub fn bind_at<H: Net<Listener = TcpListener, Stream = TcpStream>>(
    rt: &H,
    address: &str,
) -> Result<TcpListener, Exit>
    ensures { IfErr result (λ exit. Says exit 2 (codes "peer_serve: cannot bind")) }
{
    match TcpListener::bind(rt, address) {
        Ok(listener) => Ok(listener),
        Err(_) => Err(CANNOT_BIND),
    }
}

//! A peer server over a source of one's own, to copy from: `upper_peer ADDRESS` serves the group `upper`.
//!
//! The source says in its contract which answer each key has (`specs/Upper.antt`). All else is `peer_server`'s.
#![tactic(auto)]

mod source;

use crate::source::UpperSource;
use peer_socket::peer_server;
use std::env;
use std::hash::RandomState;
use std::net::{Net, TcpListener, TcpStream};
use std::process::ExitCode;
use std::random::RandomSource;
use std::sync::Wait;
use std::thread::Threads;
use std::time::Clock;

// Two workers, 16 connections at a time, a million for each of the 16, and 1 MiB of cache.
const WORKERS: usize = 2;

const CONNS: usize = 16;

const ROUNDS: u64 = 1_000_000;

const CACHE_BYTES: u64 = 1_048_576;

fn main(rt: HostRuntime) -> ExitCode {
    let served = match address_of(&rt) {
        Some(address) => serve(&rt, address.as_str()),
        None => None,
    };
    match served {
        Some(()) => ExitCode::from(0),
        None => {
            let _ = eprintln!(rt; "usage: upper_peer ADDRESS, which must be free");
            ExitCode::from(1)
        }
    }
}

// The address that stands behind the program's name.
fn address_of(rt: &HostRuntime) -> Option<String> {
    env::args(rt).ok()?.nth(1)
}

// Serves the address, and says how much was asked.
fn serve<H: Net<Listener = TcpListener, Stream = TcpStream> + Threads + Wait + Clock + Sync>(
    rt: &H,
    address: &str,
) -> Option<()>
where
    H: AllocGlobal + Print + RandomSource,
{
    let listener = TcpListener::bind(rt, address).ok()?;
    let seed = RandomState::new(rt).ok()?;
    let report = peer_server(
        rt,
        rt.alloc(),
        UpperSource,
        listener,
        WORKERS,
        CONNS,
        ROUNDS,
        CACHE_BYTES,
        seed,
    )
    .ok()?;
    println!(rt; "asked {}", report.asked).ok()
}

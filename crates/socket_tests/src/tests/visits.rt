//! Clients that come to a server one after the other, and what each finds.

use super::actions::Actions;
use super::clients::{connect, drips_in_vain, is_answered, is_answered_last, receives, send};
use super::plans::{Expect, Kind, case_of, plan_of};
use super::servers::is_met;
use peer_origin::Wires;
use peer_runtime::{Limits, Network};
use std::net::{Net, SocketAddr, TcpListener, TcpStream};
use std::random::RandomSource;
use std::sync::Wait;
use std::thread;
use std::thread::Threads;
use std::time::{Clock, Duration};
use stream_model::{ASK_K_LAST, FOUND_K, FOUND_K_LAST};

/// What a client does, and what it is to find.
#[derive(Clone, Copy)]
pub enum Visit {
    /// It comes and goes away.
    Comes,
    /// It asks for the last time, and is answered.
    Asks,
    /// The same, so many milliseconds after those before it.
    AsksLate(u64),
    /// It sends these bytes, and is silent then: it gets one reply, and is let go.
    FallsSilent(&'static [u8]),
    /// It is answered, is silent for so many milliseconds, and is answered for the last time.
    Pauses(u64),
    /// The same, but it pauses within its last request too, for 200 milliseconds.
    PausesWithin(u64),
    /// It says nothing, and is let go.
    SaysNothing,
    /// It sends a byte at a time, and is let go.
    Drips,
    /// The same behind its closing reply.
    DripsBehind,
    /// It sends much behind its last request, and gets the whole reply and no reset.
    SendsMore,
}

// Waits for so many milliseconds, and says that the client goes on.
fn pause<H: Network>(rt: &H, milliseconds: u64) -> bool {
    thread::sleep(rt, Duration::from_millis(milliseconds));
    true
}

// Whether a client finds what it is to find.
fn finds<H: Network + AllocGlobal>(rt: &H, stream: &TcpStream, visit: Visit) -> bool {
    let alloc = rt.alloc();
    match visit {
        Visit::Comes => true,
        Visit::Asks | Visit::AsksLate(_) => is_answered_last(alloc, stream),
        Visit::FallsSilent(bytes) => send(stream, bytes) && receives(alloc, stream, FOUND_K),
        Visit::Pauses(time) => {
            is_answered(stream) && pause(rt, time) && is_answered_last(alloc, stream)
        }
        Visit::PausesWithin(time) => {
            is_answered(stream) && pause(rt, time) && is_answered_in_halves(rt, stream)
        }
        Visit::SaysNothing => receives(alloc, stream, b""),
        Visit::Drips => drips_in_vain(rt, stream),
        Visit::DripsBehind => is_answered_last(alloc, stream) && drips_in_vain(rt, stream),
        Visit::SendsMore => {
            (0..2000).all(|_| send(stream, ASK_K_LAST)) && receives(alloc, stream, FOUND_K_LAST)
        }
    }
}

// Whether a client gets the reply to its last request, of which the beginning comes first.
fn is_answered_in_halves<H: Network + AllocGlobal>(rt: &H, stream: &TcpStream) -> bool {
    send(stream, &ASK_K_LAST[..10])
        && pause(rt, 200)
        && send(stream, &ASK_K_LAST[10..])
        && receives(rt.alloc(), stream, FOUND_K_LAST)
}

/// Whether each of these clients finds what it is to find.
pub fn all_find<H: Network + AllocGlobal>(rt: &H, address: SocketAddr, visits: &[Visit]) -> bool {
    let mut right = true;
    for visit in visits {
        if let Visit::AsksLate(time) = *visit {
            let _ = pause(rt, time);
        }
        right &= match connect(rt, address) {
            Some(stream) => finds(rt, &stream, *visit),
            None => false,
        };
    }
    right
}

/// Whether each of these clients finds what it is to find at a server in threads and at one on loops, with one connection within
/// these limits, which each of them has in turn, and whether each server counts so many requests.
pub fn are_found<
    H: Net<Listener = TcpListener, Stream = TcpStream> + Threads + Wait + Clock + Sync + Wires,
>(rt: &H, limits: Limits, visits: &[Visit], asked: u64) -> bool
where
    H: AllocGlobal + RandomSource,
{
    let plan = plan_of(1, 1, visits.len() as u64).within(limits);
    let (actions, expect) = (Actions::Visits(visits), Expect::Asked(asked));
    is_met(rt, case_of(Kind::Seats, plan, actions, expect))
        && is_met(rt, case_of(Kind::Loops, plan, actions, expect))
}

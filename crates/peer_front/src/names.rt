//! Names of services, which are looked up again while it serves: a service may move to other addresses.

use crate::end::End;
use crate::log::Log;
use peer_log::{Field, Level, Said};
use peer_origin::{Endpoint, LookUp};
use peer_runtime::Network;
use peer_stats::ServiceSlots;
use std::alloc::Global;
use std::fmt::Write;
use std::net::SocketAddr;
use std::time::Duration;

// The seconds between two look-ups of a name.
const LOOK_UP_SECONDS: u64 = 5;

/// Whether the host of one of these endpoints is a name.
pub fn has_names(endpoints: &[Endpoint]) -> bool {
    endpoints
        .iter()
        .any(|endpoint| endpoint.addresses.has_name())
}

// These addresses with commas between them, if memory is not refused.
fn text_of(alloc: Global, addresses: &[SocketAddr]) -> Option<String> {
    let mut text = String::new(alloc);
    for address in addresses {
        if !text.is_empty() {
            text.push(',').ok()?;
        }
        write!(text, "{address}").ok()?;
    }
    Some(text)
}

// The fields of a line on the addresses of a service.
fn fields_of<'a>(service: &'a [u8], addresses: &'a [u8]) -> [Field<'a>; 2] {
    [
        Field {
            name: b"service",
            said: Said::Word(service),
        },
        Field {
            name: b"addresses",
            said: Said::Word(addresses),
        },
    ]
}

// Says that a look-up of the name of an endpoint found other addresses, or none.
fn say_look_up<H: AllocGlobal + Eprint + Network>(
    rt: &H,
    log: &Log,
    endpoint: &Endpoint,
    came_to: LookUp,
) {
    let (level, what) = match came_to {
        LookUp::Same => return,
        LookUp::Changed => (Level::Info, b"addresses changed".as_slice()),
        LookUp::Failed => (
            Level::Warn,
            b"look-up failed, the addresses stay".as_slice(),
        ),
    };
    let Ok(found) = endpoint.addresses.found(rt) else {
        return;
    };
    let Some(text) = text_of(rt.alloc(), found.as_slice()) else {
        return;
    };
    let fields = fields_of(endpoint.host.as_slice(), text.as_str().as_bytes());
    log.say(rt, level, what, &fields);
}

// Looks the name of an endpoint up again, unless one of those before it is at the same host, whose addresses it shares.
fn look_up<H: AllocGlobal + Eprint + Network>(
    rt: &H,
    log: &Log,
    services: &ServiceSlots,
    endpoints: &[Endpoint],
    number: usize,
) {
    let Some(endpoint) = endpoints.get(number) else {
        return;
    };
    let mut before = endpoints.iter().take(number);
    if !before.any(|other| other.host == endpoint.host) {
        let came_to = endpoint.addresses.look_up_again(rt, rt.alloc());
        services.count_lookup(number, !matches!(came_to, LookUp::Failed));
        say_look_up(rt, log, endpoint, came_to);
    }
}

/// Looks the names up again and again, until the end is told.
pub fn look_up_names<H: AllocGlobal + Eprint + Network>(
    rt: &H,
    log: &Log,
    services: &ServiceSlots,
    endpoints: &[Endpoint],
    end: &End,
) {
    for _ in rt.forever() {
        end.wait(rt, Duration::from_secs(LOOK_UP_SECONDS));
        if end.is_told() {
            return;
        }
        for number in 0..endpoints.len() {
            if end.is_told() {
                return;
            }
            look_up(rt, log, services, endpoints, number);
        }
    }
    unreachable!()
}

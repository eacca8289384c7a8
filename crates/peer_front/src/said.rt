//! What the program says of its serving.

use crate::caches::CachesSaid;
use peer_fill::Report;
use peer_flags::Options;
use peer_origin::Endpoint;
use peer_stats::ServedGroup;
use std::fmt::{Display, Formatter};
use std::io::Write;
use std::net::TcpListener;
use std::{fmt, io};

/// Who fills what is asked for.
#[derive(Clone, Copy, Debug, PartialEq, Eq)]
pub enum FilledBy {
    Fetchers,
    Workers,
    Loops,
}

// A number of things, with their name as one or several of them are called.
#[derive(Clone, Copy)]
struct Counted<'a> {
    number: usize,
    one: &'a str,
    several: &'a str,
}

impl<'a> Display for Counted<'a> {
    fn fmt<W: fmt::Write>(&self, f: &mut Formatter<W>) -> fmt::Result {
        let name = if self.number == 1 {
            self.one
        } else {
            self.several
        };
        write!(f, "{} {name}", self.number)
    }
}

// A number of things with their name.
fn named<'a>(number: usize, one: &'a str, several: &'a str) -> Counted<'a> {
    Counted {
        number,
        one,
        several,
    }
}

/// Says on standard error what is served, where, and by what.
pub fn say_serving<H: AllocGlobal + Eprint>(
    rt: &H,
    groups: usize,
    listener: &TcpListener,
    options: &Options<'_>,
    filled_by: FilledBy,
) {
    let groups = named(groups, "group", "groups");
    let most = named(options.connections, "connection", "connections");
    let loops = named(options.loops, "loop", "loops");
    let Ok(address) = listener.local_addr() else {
        let _ = eprintln!(rt; "peer_front: serves {groups} at {}", options.listen);
        return;
    };
    let _ = match filled_by {
        FilledBy::Fetchers => eprintln!(rt;
            "peer_front: serves {groups} at {address}, {most} at most, on {loops}, and fetches on {}, {} under way on each",
            named(options.fetchers, "thread", "threads"),
            named(options.under_way, "value", "values")
        ),
        FilledBy::Workers => eprintln!(rt;
            "peer_front: serves {groups} at {address}, {most} at most, on {loops} and {}",
            named(options.workers, "worker", "workers")
        ),
        FilledBy::Loops => eprintln!(rt;
            "peer_front: serves {groups} at {address}, {most} at most, on {loops}"
        ),
    };
}

/// Says on standard error what the caches of these groups may take.
pub fn say_caches<H: AllocGlobal + Eprint>(rt: &H, groups: &[ServedGroup]) {
    let _ = eprintln!(rt; "peer_front: {}", CachesSaid { groups });
}

// Whether a key can stand right behind this prefix as a part of its own: of the path, or of the query.
fn ends_a_part(prefix: &[u8]) -> bool {
    prefix.ends_with(b"/") || prefix.ends_with(b"=")
}

/// Says on standard error which services have keys right behind the last part of their URL, which may not be meant. The words
/// name the services in the order of their endpoints.
pub fn say_prefixes<H: AllocGlobal + Eprint>(rt: &H, words: &[&str], endpoints: &[Endpoint]) {
    for (word, endpoint) in words.iter().zip(endpoints.iter()) {
        if !ends_a_part(endpoint.prefix.as_slice()) {
            let _ = eprintln!(rt;
                "peer_front: {word}: keys stand right behind this, with no / between: is that meant?"
            );
        }
    }
}

/// Says that connections can come.
pub fn say_listening<H: AllocGlobal + Print>(rt: &H) -> io::Result<()> {
    println!(rt; "listening")?;
    io::writer(rt).flush()
}

/// Says what the pool counted.
pub fn say_totals<H: AllocGlobal + Print>(rt: &H, report: &Report) -> io::Result<()> {
    println!(rt;
        "asked {} hits {} led {} joined {} calls {} rehits {} left {}",
        report.asked,
        report.hits,
        report.led,
        report.joined,
        report.calls,
        report.rehits,
        report.left
    )?;
    io::writer(rt).flush()
}

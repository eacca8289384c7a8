//! What would be served.

use crate::caches::{CachesSaid, Size};
use crate::config::{ConfigFile, group_in};
use crate::exit::{DONE, Exit, OUT_OF_MEMORY, no_output, refuse};
use crate::facts::served_groups;
use peer_config::Group;
use peer_flags::Options;
use peer_groups::FrontSource;
use peer_origin::{Endpoint, Wires};
use peer_source::Source;
use peer_stats::ServedGroup;
use std::io;
use std::io::Write;
use std::time::Duration;

// The groups that would be served, what a file says of them, and the endpoints of those that services have, from a number on.
#[derive(Clone, Copy)]
struct Asked<'a> {
    groups: &'a [ServedGroup],
    file: Option<ConfigFile<'a>>,
    first: usize,
    each: &'a [Endpoint],
}

// Writes the names of the fields that the requests of a group have besides the usual ones, and none of their values.
fn write_fields<W: Write>(writer: &mut W, endpoint: &Endpoint) -> io::Result<()> {
    let mut before = b"\n  header ".as_slice();
    for field in endpoint.own.fields.iter() {
        writer.write_all(before)?;
        writer.write_all(field.name())?;
        before = b", ".as_slice();
    }
    Ok(())
}

// Writes a time that is set, in milliseconds.
fn write_time<W: Write>(writer: &mut W, key: &str, time: Option<Duration>) -> io::Result<()> {
    match time {
        Some(time) => write!(writer, "\n  {key} {}ms", time.as_millis()),
        None => Ok(()),
    }
}

// Writes what is set of the group of an endpoint.
fn write_own<W: Write>(writer: &mut W, endpoint: &Endpoint) -> io::Result<()> {
    write_fields(writer, endpoint)?;
    write_time(writer, "timeout", endpoint.own.value)?;
    write_time(writer, "connect_timeout", endpoint.own.connect)?;
    match endpoint.own.under_way {
        Some(under_way) => write!(writer, "\n  under_way {under_way}"),
        None => Ok(()),
    }
}

// Writes what is set of the cache of a group.
fn write_cache<W: Write>(writer: &mut W, group: &Group) -> io::Result<()> {
    if let Some(bytes) = group.cache() {
        write!(writer, "\n  cache {}", Size { bytes })?;
    }
    match group.cache_keys() {
        Some(keys) => write!(writer, "\n  cache_keys {keys}"),
        None => Ok(()),
    }
}

// Writes the name of the group with this number, and what is set of it.
fn write_group<W: Write>(writer: &mut W, asked: &Asked<'_>, number: usize) -> io::Result<()> {
    let Some(served) = asked.groups.get(number) else {
        return Ok(());
    };
    writer.write_all(served.name.as_slice())?;
    if let Some(index) = number.checked_sub(asked.first) {
        if let Some(endpoint) = asked.each.get(index) {
            write_own(writer, endpoint)?;
        }
    }
    if let Some(group) = group_in(asked.file, served.name.as_slice()) {
        write_cache(writer, group)?;
    }
    writer.write_all(b"\n")
}

// Says where and how these groups would be served.
fn say_groups<H: AllocGlobal + Print>(
    rt: &H,
    options: &Options<'_>,
    asked: &Asked<'_>,
) -> io::Result<()> {
    println!(rt;
        "would serve at {}, with {}:",
        options.listen,
        CachesSaid {
            groups: asked.groups
        }
    )?;
    let mut writer = io::writer(rt);
    for number in 0..asked.groups.len() {
        write_group(&mut writer, asked, number)?;
    }
    writer.flush()
}

/// Says what would be served of a source, or why that cannot be said.
pub fn say_checked<H: AllocGlobal + Print + Eprint + Wires + Sync>(
    rt: &H,
    options: &Options<'_>,
    source: &FrontSource<'_, H>,
    words: &[&str],
    file: Option<ConfigFile<'_>>,
) -> Exit {
    let services = source.first();
    let groups = served_groups(rt.alloc(), source, words, options, file);
    let (Some(groups), Ok(each)) = (groups, services.second().endpoints(rt.alloc())) else {
        return refuse(rt, &"out of memory", OUT_OF_MEMORY);
    };
    let asked = Asked {
        groups: groups.as_slice(),
        file,
        first: services.first().group_count(),
        each: each.as_slice(),
    };
    match say_groups(rt, options, &asked) {
        Ok(()) => DONE,
        Err(error) => no_output(rt, &error),
    }
}

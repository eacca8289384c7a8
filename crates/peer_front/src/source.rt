//! The source that the program serves: the groups of a table, of services and of the demonstration.

use crate::config::{ConfigFile, Said, check_tabled, say_flag, say_group};
use crate::exit::{BAD_WORD, Exit, OUT_OF_MEMORY, refuse};
use crate::group_settings::set_groups;
use crate::table::read_table;
use peer_flags::Options;
use peer_groups::{Beside, DEMO_NAMES, FrontSource, GroupFault, Maybe, first_in, origins_of};
use peer_origin::{FetchSettings, Origin, OriginSource, Wires};
use peer_runtime::Network;
use peer_source::{DemoSource, MAX_GROUPS, Source};
use peer_table::TableSource;
use std::fs::Files;

// The table that is asked for, if one is.
fn table_of<H: AllocGlobal + Eprint + Files>(
    rt: &H,
    options: &Options<'_>,
    file: Option<ConfigFile<'_>>,
) -> Result<Option<TableSource>, Exit> {
    let Some(path) = options.table else {
        return Ok(None);
    };
    match read_table(rt, rt.alloc(), path) {
        Ok(table) => Ok(Some(table)),
        Err(fault) => {
            let why = Said {
                word: path,
                why: &fault,
            };
            say_flag(rt, file, "table", &why);
            Err(fault.exit())
        }
    }
}

// The first word whose group the table or the demonstrations have too.
fn first_twice<'w>(
    options: &Options<'_>,
    table: &Option<TableSource>,
    words: &[&'w str],
) -> Option<&'w str> {
    if options.demo {
        if let Some(word) = first_in(&DemoSource, words) {
            return Some(word);
        }
    }
    match table {
        Some(table) => first_in(table, words),
        None => None,
    }
}

// Whether the table has a group for demonstrations.
fn has_demo_group(table: &Option<TableSource>) -> bool {
    match table {
        Some(table) => first_in(table, &DEMO_NAMES).is_some(),
        None => false,
    }
}

// Says that a group would be served twice, where one would.
fn check_twice<H: AllocGlobal + Eprint>(
    rt: &H,
    options: &Options<'_>,
    table: &Option<TableSource>,
    words: &[&str],
    file: Option<ConfigFile<'_>>,
) -> Result<(), Exit> {
    if let Some(word) = first_twice(options, table, words) {
        say_group(rt, file, word, &GroupFault::Repeated);
        return Err(BAD_WORD);
    }
    match options.table {
        Some(path) if options.demo && has_demo_group(table) => {
            let why = Said {
                word: path,
                why: &"has a group of --demo, whose are echo, square and fill",
            };
            say_flag(rt, file, "table", &why);
            Err(BAD_WORD)
        }
        _ => Ok(()),
    }
}

// Says that there are no groups, or too many.
fn check_count<H: AllocGlobal + Eprint>(rt: &H, groups: usize) -> Result<(), Exit> {
    match groups {
        0 => Err(refuse(
            rt,
            &"nothing to serve: give GROUP=URL, --table FILE or --demo",
            BAD_WORD,
        )),
        _ if groups > MAX_GROUPS => Err(refuse(rt, &GroupFault::Groups, BAD_WORD)),
        _ => Ok(()),
    }
}

/// How services are asked.
pub fn fetch_settings(options: &Options<'_>) -> FetchSettings {
    FetchSettings {
        connect: options.connect_timeout,
        value: options.timeout,
        wait: options.wait,
        rest_after: options.rest_after,
        rest: options.rest,
        connection_for_each: options.connection_for_each,
    }
}

// The parts as one source.
fn join<'a, H: Wires + Sync>(
    options: &Options<'_>,
    table: Option<TableSource>,
    origins: Vec<Origin>,
) -> Option<FrontSource<'a, H>> {
    let behind = Beside::new(Maybe { source: table }, OriginSource::new(origins))?;
    let demo = if options.demo { Some(DemoSource) } else { None };
    Beside::new(behind, Maybe { source: demo })
}

/// The source that is asked for, or why there is none, which it says.
pub fn source_of<'a, H: AllocGlobal + Eprint + Files + Network + Wires + Sync>(
    rt: &'a H,
    options: &Options<'_>,
    words: &[&str],
    file: Option<ConfigFile<'_>>,
) -> Result<FrontSource<'a, H>, Exit> {
    let mut origins = match origins_of(rt, rt.alloc(), words) {
        Ok(origins) => origins,
        Err(bad) if bad.fault.is_memory() => return Err(refuse(rt, &bad, OUT_OF_MEMORY)),
        Err(bad) => {
            say_group(rt, file, bad.word, &bad.fault);
            return Err(BAD_WORD);
        }
    };
    set_groups(rt, file, origins.as_mut_slice())?;
    let table = table_of(rt, options, file)?;
    check_tabled(rt, file, &table)?;
    check_twice(rt, options, &table, words, file)?;
    let Some(source) = join(options, table, origins) else {
        return Err(refuse(rt, &"out of memory", OUT_OF_MEMORY));
    };
    match check_count(rt, source.group_count()) {
        Ok(()) => Ok(source),
        Err(exit) => {
            drop(source);
            Err(exit)
        }
    }
}

//! The file that flags and groups may come from, and what is said of where they stand.

use crate::exit::{BAD_WORD, Exit, OUT_OF_MEMORY, refuse};
use peer_config::{BadEntry, Config, Group, NoConfig, Place, line_of};
use peer_source::Source;
use peer_table::TableSource;
use std::alloc::Global;
use std::fmt::{Display, Formatter};
use std::fs::Files;
use std::io::{ErrorKind, Read};
use std::{fmt, fs};

// The most bytes of a file.
const MAX_BYTES: u64 = 65_536;

/// A word, and what is wrong with it.
#[derive(Drop)]
pub struct Said<'a, T> {
    pub word: &'a str,
    pub why: &'a T,
}

impl<'a, T: Display> Display for Said<'a, T> {
    fn fmt<W: fmt::Write>(&self, f: &mut Formatter<W>) -> fmt::Result {
        write!(f, "{}: {}", self.word, self.why)
    }
}

/// A file that was read.
#[derive(Clone, Copy)]
pub struct ConfigFile<'a> {
    pub path: &'a str,
    pub text: &'a [u8],
    pub config: &'a Config,
}

// Says why a file cannot be used.
fn refuse_file<T: Display, H: AllocGlobal + Eprint>(rt: &H, path: &str, why: &T) -> Exit {
    let _ = eprintln!(rt; "peer_front: --config {path}: {why}");
    BAD_WORD
}

/// The bytes of a file, or says why there are none.
pub fn read_file<H: AllocGlobal + Eprint + Files>(
    rt: &H,
    alloc: Global,
    path: &str,
) -> Result<Vec<u8>, Exit> {
    let file = match fs::open(rt, path) {
        Ok(file) => file,
        Err(error) => return Err(refuse_file(rt, path, &error)),
    };
    let mut text = Vec::new(alloc);
    let mut limited = file.take(MAX_BYTES + 1);
    match limited.read_to_end(&mut text) {
        Ok(_) if text.len() as u64 > MAX_BYTES => Err(refuse_file(
            rt,
            path,
            &"it has more than 64 KiB",
        )),
        Ok(_) => Ok(text),
        Err(error) if error.kind() == ErrorKind::OutOfMemory => {
            Err(refuse(rt, &"out of memory", OUT_OF_MEMORY))
        }
        Err(error) => Err(refuse_file(rt, path, &error)),
    }
}

/// What stands in a text, or says why that is no such file.
pub fn config_of<H: AllocGlobal + Eprint>(
    rt: &H,
    alloc: Global,
    path: &str,
    text: &[u8],
) -> Result<Config, Exit> {
    match Config::of(alloc, text) {
        Ok(config) => Ok(config),
        Err(NoConfig::Memory) => Err(refuse(rt, &"out of memory", OUT_OF_MEMORY)),
        Err(fault) => Err(refuse_file(rt, path, &fault)),
    }
}

/// Says that something in a file cannot be used, where something cannot.
pub fn check_entries<H: AllocGlobal + Eprint>(
    rt: &H,
    path: &str,
    text: &[u8],
    config: &Config,
) -> Result<(), Exit> {
    let Some(BadEntry { place, fault }) = config.bad_entry() else {
        return Ok(());
    };
    let line = line_of(rt.alloc(), text, place);
    let _ = eprintln!(rt; "peer_front: --config {path}: line {line}: {place}: {fault}");
    Err(BAD_WORD)
}

impl<'a> ConfigFile<'a> {
    /// Says what is wrong at a place of it.
    pub fn say<T: Display, H: AllocGlobal + Eprint>(&self, rt: &H, place: Place<'_>, why: &T) {
        let line = line_of(rt.alloc(), self.text, place);
        let _ = eprintln!(rt;
            "peer_front: --config {}: line {line}: {place} {why}",
            self.path
        );
    }
}

/// What a file says of the group of a name, if it says something.
pub fn group_in<'c>(file: Option<ConfigFile<'c>>, name: &[u8]) -> Option<&'c Group> {
    file?.config.group(name)
}

/// Says why a flag cannot be used: where it stands, and what is wrong with it.
pub fn say_flag<T: Display, H: AllocGlobal + Eprint>(
    rt: &H,
    file: Option<ConfigFile<'_>>,
    flag: &str,
    why: &T,
) {
    if let Some(file) = file {
        if let Some(place) = file.config.place_of_flag(flag) {
            file.say(rt, place, why);
            return;
        }
    }
    let _ = eprintln!(rt; "peer_front: --{flag} {why}");
}

/// Says why a group cannot be served that is named by a word with its URL.
pub fn say_group<T: Display + Drop, H: AllocGlobal + Eprint>(
    rt: &H,
    file: Option<ConfigFile<'_>>,
    word: &str,
    why: &T,
) {
    if let Some(file) = file {
        let (name, url) = word.split_once('=').unwrap_or((word, ""));
        if let Some(place) = file.config.place_of_group(name) {
            file.say(rt, place, &Said { word: url, why });
            return;
        }
    }
    let _ = eprintln!(rt; "peer_front: {word}: {why}");
}

// A group of the file whose table has no such group.
fn missing_group<'c>(config: &'c Config, table: &TableSource) -> Option<&'c str> {
    for group in config.groups.iter() {
        let name = group.name.as_str();
        if group.has("table") && table.group(name.as_bytes()).is_none() {
            return Some(name);
        }
    }
    None
}

/// Says that a group of the file does not stand in its table, where one does not.
pub fn check_tabled<H: AllocGlobal + Eprint>(
    rt: &H,
    file: Option<ConfigFile<'_>>,
    table: &Option<TableSource>,
) -> Result<(), Exit> {
    let Some(file) = file else {
        return Ok(());
    };
    let Some(table) = table else {
        return Ok(());
    };
    match missing_group(file.config, table) {
        Some(name) => {
            file.say(rt, Place::OfGroup(name, "table"), &"has no such group");
            Err(BAD_WORD)
        }
        None => Ok(()),
    }
}

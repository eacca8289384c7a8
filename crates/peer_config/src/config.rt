//! What stands in a file.
ghost use Rattle.std.specs.Prelude.{◌≡◌, None, IfOk, IfErr, IsSome, IsUtf8};
ghost use Rattle.toml.specs.Errors.{IsMemory};
ghost use Rattle.toml.specs.Parse.{parse_document};
ghost use Rattle.peer_config.specs.Refusals.{IsRefused};

use crate::entry::{Entry, entries_of, word_in};
use crate::fault::{BadEntry, EntryFault, NoConfig};
use crate::given::is_given;
use crate::group::{Group, groups_of};
use crate::place::{GROUPS, Place};
use clap::ArgMatches;
use std::alloc::{AllocError, Global};
use toml::{Table, Value, de, table_from_slice};

/// What stands in a file: its keys, and its groups, each in the order of their names.
#[derive(Debug, Drop)]
pub struct Config {
    pub entries: Vec<Entry>,
    pub groups: Vec<Group>,
}

// The line of a place in a text.
fn line_at(text: &[u8], place: usize) -> usize {
    let mut line = 1usize;
    for byte in text.iter().take(place) {
        if *byte == b'\n' {
            line = line.saturating_add(1);
        }
    }
    line
}

// What an error of TOML is for a file.
fn no_config(text: &[u8], error: de::Error) -> NoConfig
    requires { ¬ IsMemory error → IsUtf8 text.now → parse_document text.now ≡ None }
    ensures { IsRefused text.now result }
{
    match error.span() {
        Some(span) => NoConfig::Form(line_at(text, span.start), error),
        None => NoConfig::Memory,
    }
}

// What stands in a document.
fn config_of(alloc: Global, document: &Table) -> Result<Config, AllocError> {
    let entries = entries_of(alloc, document)?;
    let groups = match document.get(GROUPS) {
        Some(Value::Table(groups)) => groups_of(alloc, groups)?,
        _ => Vec::new(alloc),
    };
    Ok(Config { entries, groups })
}

impl Config {
    /// What stands in a text.
    pub fn of(alloc: Global, text: &[u8]) -> Result<Config, NoConfig>
        ensures ok { IfOk result (λ _. IsUtf8 text.now × IsSome (parse_document text.now)) }
        ensures refused { IfErr result (IsRefused text.now) }
    {
        let document = match table_from_slice(alloc, text) {
            Ok(document) => document,
            Err(error) => return Err(no_config(text, error)),
        };
        match config_of(alloc, &document) {
            Ok(config) => Ok(config),
            Err(_) => Err(NoConfig::Memory),
        }
    }

    /// Notes what a command line gives, which wins over what stands here.
    pub fn note_given(&mut self, matches: &ArgMatches<'_>) {
        for entry in self.entries.iter_mut() {
            entry.is_overridden = is_given(matches, entry.key.as_str());
        }
        for group in self.groups.iter_mut() {
            group.note_given(matches);
        }
    }

    /// The group of a name, if it stands here.
    pub fn group(&self, name: &[u8]) -> Option<&Group> {
        self.groups
            .iter()
            .find(|group| group.name.as_bytes() == name)
    }

    /// The file of the table that is served, if one is.
    pub fn table(&self) -> Option<&str> {
        if let Some(table) = word_in(self.entries.as_slice(), "table") {
            return Some(table);
        }
        for group in self.groups.iter() {
            if let Some(table) = group.table() {
                return Some(table);
            }
        }
        None
    }

    // A group that stands in another table than the one that is served.
    fn in_other_table(&self) -> Option<BadEntry<'_>> {
        let served = self.table()?;
        for group in self.groups.iter() {
            if group.table().is_some_and(|table| table != served) {
                return Some(BadEntry {
                    place: Place::OfGroup(group.name.as_str(), "table"),
                    fault: EntryFault::OtherTable,
                });
            }
        }
        None
    }

    // A key that is no flag, or has not what its flag takes.
    fn bad_flag(&self) -> Option<BadEntry<'_>> {
        for entry in self.entries.iter() {
            if let Some(fault) = entry.flag_fault() {
                return Some(BadEntry {
                    place: Place::Key(entry.key.as_str()),
                    fault,
                });
            }
        }
        None
    }

    // What cannot be used in a group.
    fn bad_group(&self) -> Option<BadEntry<'_>> {
        for group in self.groups.iter() {
            if let Some(bad) = group.bad_entry() {
                return Some(bad);
            }
        }
        None
    }

    /// What cannot be used, if something cannot.
    pub fn bad_entry(&self) -> Option<BadEntry<'_>> {
        if let Some(bad) = self.bad_flag() {
            return Some(bad);
        }
        if let Some(bad) = self.bad_group() {
            return Some(bad);
        }
        self.in_other_table()
    }

    /// Where a flag's word stands, if it stands here and counts.
    pub fn place_of_flag<'c>(&'c self, flag: &'c str) -> Option<Place<'c>> {
        for entry in self.entries.iter() {
            if entry.key.as_str() == flag && !entry.is_overridden {
                return Some(Place::Key(flag));
            }
        }
        if flag == "table" {
            self.place_of("table")
        } else {
            None
        }
    }

    // Where this key of a group stands that counts: the first one.
    fn place_of<'c>(&'c self, key: &'c str) -> Option<Place<'c>> {
        for group in self.groups.iter() {
            if group.has(key) {
                return Some(Place::OfGroup(group.name.as_str(), key));
            }
        }
        None
    }

    /// Where the URL of a group stands, if it stands here and counts.
    pub fn place_of_group(&self, name: &str) -> Option<Place<'_>> {
        for group in self.groups.iter() {
            if group.name.as_str() == name && group.has("url") {
                return Some(Place::OfGroup(group.name.as_str(), "url"));
            }
        }
        None
    }
}

//! A group of a file.

use crate::entry::{Entry, entries_of, word_in};
use crate::fault::{BadEntry, EntryFault};
use crate::given::{is_given, is_given_group};
use crate::place::Place;
use clap::ArgMatches;
use peer_flags::{bytes_in, cache_keys_in, time_in, under_way_in};
use std::alloc::{AllocError, Global};
use std::time::Duration;
use toml::{Table, Value};

/// A group, and what stands in its table. It has no entries if it is no table.
#[derive(Debug, Drop)]
pub struct Group {
    pub name: String,
    pub entries: Vec<Entry>,
}

impl Group {
    // The group of a name and its value.
    fn of(alloc: Global, name: &str, value: &Value) -> Result<Group, AllocError> {
        let entries = match value {
            Value::Table(table) => entries_of(alloc, table)?,
            _ => Vec::new(alloc),
        };
        let name = String::from_str(alloc, name)?;
        Ok(Group { name, entries })
    }

    /// The URL that stands before its keys, if it has one.
    pub fn url(&self) -> Option<&str> {
        word_in(self.entries.as_slice(), "url")
    }

    /// The file of the table that it stands in, if it stands in one.
    pub fn table(&self) -> Option<&str> {
        word_in(self.entries.as_slice(), "table")
    }

    /// The fields that its requests have besides the usual ones, if some stand here.
    pub fn headers(&self) -> Option<&[String]> {
        for entry in self.entries.iter() {
            if entry.key.as_str() == "header" {
                return entry.texts();
            }
        }
        None
    }

    /// How long a value of it may take, if that stands here.
    pub fn timeout(&self) -> Option<Duration> {
        time_in(word_in(self.entries.as_slice(), "timeout")?).ok()
    }

    /// How long a connection to one address of its service may take, if that stands here.
    pub fn connect_timeout(&self) -> Option<Duration> {
        time_in(word_in(self.entries.as_slice(), "connect_timeout")?).ok()
    }

    /// How many of its values each thread may have under way, if that stands here.
    pub fn under_way(&self) -> Option<usize> {
        under_way_in(word_in(self.entries.as_slice(), "under_way")?).ok()
    }

    /// The most bytes of its cache, if that stands here.
    pub fn cache(&self) -> Option<u64> {
        bytes_in(word_in(self.entries.as_slice(), "cache")?).ok()
    }

    /// The most keys of its cache, if that stands here.
    pub fn cache_keys(&self) -> Option<u64> {
        cache_keys_in(word_in(self.entries.as_slice(), "cache_keys")?).ok()
    }

    /// Notes whether a command line names its URL, or a table.
    pub(crate) fn note_given(&mut self, matches: &ArgMatches<'_>) {
        let has_url = is_given_group(matches, self.name.as_str());
        let has_table = is_given(matches, "table");
        for entry in self.entries.iter_mut() {
            let key = entry.key.as_str();
            entry.is_overridden = key == "url" && has_url || key == "table" && has_table;
        }
    }

    /// Whether it has this key, and the command line says nothing else.
    pub fn has(&self, key: &str) -> bool {
        let mut entries = self.entries.iter();
        entries.any(|entry| entry.key.as_str() == key && !entry.is_overridden)
    }

    // Why the whole of it cannot be used, if it cannot.
    fn fault(&self) -> Option<EntryFault> {
        let name = self.name.as_str();
        if name.is_empty() || name.contains('=') || name.contains('/') {
            Some(EntryFault::Name)
        } else if self.entries.is_empty() {
            Some(EntryFault::Group)
        } else if self.url().is_some() == self.table().is_some() {
            Some(EntryFault::OneSource)
        } else {
            None
        }
    }

    // A key that a group in a table has not, if it is one and has such a key.
    fn for_services(&self) -> Option<BadEntry<'_>> {
        let name = self.name.as_str();
        self.table()?;
        for entry in self.entries.iter() {
            if entry.is_for_services() {
                return Some(BadEntry {
                    place: Place::OfGroup(name, entry.key.as_str()),
                    fault: EntryFault::ForServices,
                });
            }
        }
        None
    }

    /// What cannot be used in it, if something cannot.
    pub(crate) fn bad_entry(&self) -> Option<BadEntry<'_>> {
        let name = self.name.as_str();
        for entry in self.entries.iter() {
            if let Some(fault) = entry.group_fault() {
                return Some(BadEntry {
                    place: Place::OfGroup(name, entry.key.as_str()),
                    fault,
                });
            }
        }
        match self.fault() {
            Some(fault) => Some(BadEntry {
                place: Place::Group(name),
                fault,
            }),
            None => self.for_services(),
        }
    }
}

/// The groups of a table.
pub(crate) fn groups_of(alloc: Global, table: &Table) -> Result<Vec<Group>, AllocError> {
    let mut groups = Vec::new(alloc);
    for (name, value) in table.iter() {
        groups.push(Group::of(alloc, name.as_str(), value)?)?;
    }
    Ok(groups)
}

//! Where something stands in a file.

use std::alloc::Global;
use std::fmt;
use std::fmt::{Display, Formatter};
use toml::{Table, Value, table_from_slice};

/// The key of the table that has the groups.
pub(crate) const GROUPS: &str = "groups";

/// What something in a file is about.
#[derive(Clone, Copy, Debug, PartialEq, Eq)]
pub enum Place<'a> {
    /// A key that stands in no table.
    Key(&'a str),
    /// A group.
    Group(&'a str),
    /// A group, and a key of it.
    OfGroup(&'a str, &'a str),
}

impl<'a> Display for Place<'a> {
    fn fmt<W: fmt::Write>(&self, f: &mut Formatter<W>) -> fmt::Result {
        match self {
            Place::Key(key) => write!(f, "{key}"),
            Place::Group(name) => write!(f, "{GROUPS}.{name}"),
            Place::OfGroup(name, key) => write!(f, "{GROUPS}.{name}.{key}"),
        }
    }
}

// What stands for a group.
fn group_in<'t>(table: &'t Table, name: &str) -> Option<&'t Value> {
    match table.get(GROUPS) {
        Some(Value::Table(groups)) => groups.get(name),
        _ => None,
    }
}

// Whether a document has this.
fn has(table: &Table, place: Place<'_>) -> bool {
    match place {
        Place::Key(key) => table.contains_key(key),
        Place::Group(name) => group_in(table, name).is_some(),
        Place::OfGroup(name, key) => match group_in(table, name) {
            Some(Value::Table(entries)) => entries.contains_key(key),
            _ => false,
        },
    }
}

// Whether a text is a document that has this.
fn is_told(alloc: Global, text: &[u8], place: Place<'_>) -> bool {
    match table_from_slice(alloc, text) {
        Ok(table) => has(&table, place),
        Err(_) => false,
    }
}

/// The line in which something stands: the first up to which the text is a document that has it, and the last one if there is
/// none. It reads the text anew for each line, so it is for a fault alone.
pub fn line_of(alloc: Global, text: &[u8], place: Place<'_>) -> usize {
    let mut line = 1usize;
    for at in 0..text.len() {
        if text[at] != b'\n' {
            continue;
        }
        if is_told(alloc, &text[..at], place) {
            return line;
        }
        line = line.saturating_add(1);
    }
    line
}

//! A key of a file, and what stands for it.

use crate::fault::EntryFault;
use crate::group_key::GroupKey;
use crate::header::Header;
use crate::place::GROUPS;
use peer_flags::{FlagKind, kind_of};
use std::alloc::{AllocError, Global};
use toml::{Table, Value};

/// What stands for a key.
#[derive(Debug, Drop)]
pub enum Given {
    /// A text, or a whole number in decimal.
    Word(String),
    Switch(bool),
    Table,
    /// A list of texts.
    Texts(Vec<String>),
    /// Another list, a date, or a number that is not whole.
    Other,
}

/// A key, and what stands for it.
#[derive(Debug, Drop)]
pub struct Entry {
    pub key: String,
    pub given: Given,
    /// Whether the command line says something else, which wins.
    pub is_overridden: bool,
}

// The most fields of the requests of a group.
const MAX_FIELDS: usize = 16;

// The texts of a list, if it has nothing else.
fn texts_of(alloc: Global, values: &[Value]) -> Result<Given, AllocError> {
    let mut texts = Vec::new(alloc);
    for value in values {
        let Value::String(text) = value else {
            return Ok(Given::Other);
        };
        texts.push(String::from_str(alloc, text.as_str())?)?;
    }
    Ok(Given::Texts(texts))
}

// Why these are no fields of requests, if they are none.
fn headers_fault(texts: &[String]) -> Option<EntryFault> {
    if texts.len() > MAX_FIELDS {
        return Some(EntryFault::Fields);
    }
    for index in 0..texts.len() {
        if let Err(fault) = Header::of(texts[index].as_str()) {
            return Some(EntryFault::Header(index.saturating_add(1), fault));
        }
    }
    None
}

impl Entry {
    // The entry of a key and its value.
    fn of(alloc: Global, key: &str, value: &Value) -> Result<Entry, AllocError> {
        let given = match value {
            Value::String(text) => Given::Word(String::from_str(alloc, text.as_str())?),
            Value::Integer(number) => Given::Word(number.to_string(alloc)?),
            Value::Boolean(is_on) => Given::Switch(*is_on),
            Value::Table(_) => Given::Table,
            Value::Array(values) => texts_of(alloc, values.as_slice())?,
            _ => Given::Other,
        };
        let key = String::from_str(alloc, key)?;
        Ok(Entry {
            key,
            given,
            is_overridden: false,
        })
    }

    /// The word that stands for the key, if one does.
    pub fn word(&self) -> Option<&str> {
        match &self.given {
            Given::Word(word) => Some(word.as_str()),
            _ => None,
        }
    }

    /// The texts that stand for the key, if they do.
    pub fn texts(&self) -> Option<&[String]> {
        match &self.given {
            Given::Texts(texts) => Some(texts.as_slice()),
            _ => None,
        }
    }

    /// Why it can be no flag, if it cannot.
    pub(crate) fn flag_fault(&self) -> Option<EntryFault> {
        let key = self.key.as_str();
        match kind_of(key) {
            None if key == GROUPS => match &self.given {
                Given::Table => None,
                _ => Some(EntryFault::Groups),
            },
            None => Some(EntryFault::NoFlag),
            Some(FlagKind::Switch) => match &self.given {
                Given::Switch(_) => None,
                _ => Some(EntryFault::Switch),
            },
            Some(FlagKind::Value) => match &self.given {
                Given::Word(_) => None,
                _ => Some(EntryFault::Word),
            },
        }
    }

    /// Why it can be no key of a group, if it cannot.
    pub(crate) fn group_fault(&self) -> Option<EntryFault> {
        let Some(key) = self.group_key() else {
            return Some(EntryFault::GroupKey);
        };
        if key == GroupKey::Header {
            return match self.texts() {
                Some(texts) => headers_fault(texts),
                None => Some(EntryFault::Texts),
            };
        }
        match self.word() {
            Some(word) => key.word_fault(word).map(EntryFault::Value),
            None => Some(EntryFault::Word),
        }
    }

    // Which key of a group it is, if it can be one.
    fn group_key(&self) -> Option<GroupKey> {
        GroupKey::named(self.key.as_str())
    }

    /// Whether it is a key of groups whose values services have, and of no other.
    pub(crate) fn is_for_services(&self) -> bool {
        match self.group_key() {
            Some(key) => key.is_for_services(),
            None => false,
        }
    }
}

/// The entries of a table.
pub(crate) fn entries_of(alloc: Global, table: &Table) -> Result<Vec<Entry>, AllocError> {
    let mut entries = Vec::new(alloc);
    for (key, value) in table.iter() {
        entries.push(Entry::of(alloc, key.as_str(), value)?)?;
    }
    Ok(entries)
}

/// The word that stands for a key among these entries, if one does.
pub(crate) fn word_in<'c>(entries: &'c [Entry], key: &str) -> Option<&'c str> {
    for entry in entries {
        if entry.key.as_str() == key {
            return entry.word();
        }
    }
    None
}

//! Files that cannot be used.

use crate::header::HeaderFault;
use crate::place::Place;
use peer_flags::WordFault;
use std::fmt;
use std::fmt::{Display, Formatter};
use thiserror::Error;
use toml::de;

/// Why a text is no file of this kind.
#[derive(Clone, Copy, Debug, PartialEq, Eq)]
pub enum NoConfig {
    /// It is no document of TOML, from this line on.
    Form(usize, de::Error),
    /// Memory was refused.
    Memory,
}

impl Display for NoConfig {
    fn fmt<W: fmt::Write>(&self, f: &mut Formatter<W>) -> fmt::Result {
        match self {
            NoConfig::Form(line, error) => write!(f, "line {line}: {}", error.message()),
            NoConfig::Memory => f.write_str("out of memory"),
        }
    }
}

/// Why an entry of a file cannot be used.
#[derive(Clone, Copy, Debug, PartialEq, Eq, Error)]
pub enum EntryFault {
    #[error("there is no such flag")]
    NoFlag,
    #[error("true or false is needed")]
    Switch,
    #[error("a text or a whole number is needed")]
    Word,
    #[error("groups are tables, such as [groups.colors]")]
    Groups,
    #[error("a group is a table with url or table, such as url = \"http://10.0.0.7/colors/\"")]
    Group,
    #[error("the name of a group has no = and no slash, and is not empty")]
    Name,
    #[error("a group has no such key: url, table, header, timeout, connect_timeout, under_way, cache and cache_keys are those it may have")]
    GroupKey,
    #[error("a list of texts is needed, such as [\"Authorization: Bearer @FILE\"]")]
    Texts,
    #[error("there are more than 16 fields")]
    Fields,
    /// One of the fields, by its number.
    #[error("field {0}: {1}")]
    Header(usize, HeaderFault),
    #[error("{0}")]
    Value(WordFault),
    #[error("this is for a group with url")]
    ForServices,
    #[error("url or table is needed, and not both")]
    OneSource,
    #[error("one table is served, and another one stands elsewhere in the file")]
    OtherTable,
}

/// An entry that cannot be used.
#[derive(Clone, Copy, Debug, PartialEq, Eq)]
pub struct BadEntry<'c> {
    pub place: Place<'c>,
    pub fault: EntryFault,
}

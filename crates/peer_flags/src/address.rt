//! Addresses to serve at.

use crate::fault::{BadWord, WordFault};
use crate::size::number_of;
use clap::ArgMatches;
use std::fmt;
use std::fmt::{Display, Formatter};

/// Where the program serves.
#[derive(Clone, Copy, Debug, PartialEq, Eq)]
pub enum ListenAddress<'w> {
    /// This port of every address of the machine.
    Everywhere(u16),
    /// An address and a port.
    At(&'w str),
}

impl<'w> Display for ListenAddress<'w> {
    fn fmt<W: fmt::Write>(&self, f: &mut Formatter<W>) -> fmt::Result {
        match self {
            ListenAddress::Everywhere(port) => write!(f, ":{port}"),
            ListenAddress::At(address) => write!(f, "{address}"),
        }
    }
}

/// Where the page of counters is served.
#[derive(Clone, Copy, Debug, PartialEq, Eq)]
pub enum PageAddress<'w> {
    /// This port of the loopback address.
    Loopback(u16),
    /// An address and a port.
    At(&'w str),
}

impl<'w> Display for PageAddress<'w> {
    fn fmt<W: fmt::Write>(&self, f: &mut Formatter<W>) -> fmt::Result {
        match self {
            PageAddress::Loopback(port) => write!(f, "127.0.0.1:{port}"),
            PageAddress::At(address) => write!(f, "{address}"),
        }
    }
}

// Whether a word is an address and a port. An IPv6 address stands in brackets (RFC 3986, section 3.2.2): without them its last part
// would be taken for a port.
fn is_address(word: &str) -> bool {
    let Some((host, port)) = word.rsplit_once(':') else {
        return false;
    };
    let is_bracketed = host.starts_with('[') && host.ends_with(']');
    let is_host = !host.is_empty() && (is_bracketed || !host.contains(':'));
    is_host && number_of(port, 0, 65_535).is_some()
}

// The address to serve that a word says, if it says one: a port may have no address, and a colon before it or not.
fn listen_address<'w>(word: &'w str) -> Option<ListenAddress<'w>> {
    let port = word.strip_prefix(':').unwrap_or(word);
    if let Some(port) = number_of(port, 0, 65_535) {
        Some(ListenAddress::Everywhere(port as u16))
    } else if is_address(word) {
        Some(ListenAddress::At(word))
    } else {
        None
    }
}

/// The address to serve.
pub fn listen<'w>(matches: &ArgMatches<'w>) -> Result<ListenAddress<'w>, BadWord<'w>> {
    let word = matches.get_str("listen").unwrap_or("");
    match listen_address(word) {
        Some(address) => Ok(address),
        None => Err(BadWord {
            flag: "listen",
            word,
            fault: WordFault::Address,
        }),
    }
}

// The address of the page that a word says, if it says one.
fn page_address<'w>(word: &'w str) -> Option<PageAddress<'w>> {
    if let Some(port) = number_of(word, 1, 65_535) {
        Some(PageAddress::Loopback(port as u16))
    } else if is_address(word) {
        Some(PageAddress::At(word))
    } else {
        None
    }
}

/// The address of the page, if one is asked for.
pub fn stats<'w>(matches: &ArgMatches<'w>) -> Result<Option<PageAddress<'w>>, BadWord<'w>> {
    let Some(word) = matches.get_str("stats") else {
        return Ok(None);
    };
    match page_address(word) {
        Some(address) => Ok(Some(address)),
        None => Err(BadWord {
            flag: "stats",
            word,
            fault: WordFault::Page,
        }),
    }
}

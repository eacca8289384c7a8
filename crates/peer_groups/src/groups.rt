//! The groups that are served, and where their values come from.

use crate::beside::Beside;
use crate::maybe::Maybe;
use peer_origin::{Endpoint, EndpointFault, Origin, OriginSource};
use peer_source::{DemoSource, MAX_GROUPS, Source};
use peer_table::TableSource;
use std::alloc::Global;
use std::net::{Net, TcpListener, TcpStream};
use thiserror::Error;

/// The groups of a table, then those of origins that are asked on connections of a network, and then those for demonstrations.
pub type FrontSource<'a, H> = Beside<
    Beside<Maybe<TableSource>, OriginSource<'a, H>>,
    Maybe<DemoSource>,
>;

/// Why a word names no group and its origin.
#[derive(Clone, Copy, Debug, PartialEq, Eq, Error)]
pub enum GroupFault {
    #[error("GROUP=URL is needed, such as thumbs=http://10.0.0.7/thumbs/")]
    Form,
    /// No target names such a group: a group ends at the first slash.
    #[error("the name of a group has no slash")]
    Slash,
    #[error("a group of this name is served already")]
    Repeated,
    #[error("there are more than 64 groups")]
    Groups,
    #[error("{0}")]
    Endpoint(EndpointFault),
    #[error("out of memory")]
    Memory,
}

impl GroupFault {
    /// Whether memory was refused: then the word may be right.
    pub fn is_memory(&self) -> bool {
        matches!(
            self,
            GroupFault::Memory | GroupFault::Endpoint(EndpointFault::Memory)
        )
    }
}

/// A word that names no group, and why.
#[derive(Clone, Copy, Debug, PartialEq, Eq, Error)]
#[error("{word}: {fault}")]
pub struct BadGroup<'w> {
    pub word: &'w str,
    pub fault: GroupFault,
}

// The origin that a word names.
fn origin_of<H: Net<Listener = TcpListener, Stream = TcpStream>>(
    rt: &H,
    alloc: Global,
    word: &str,
) -> Result<Origin, GroupFault> {
    let Some((name, url)) = word.split_once('=') else {
        return Err(GroupFault::Form);
    };
    if name.is_empty() || url.is_empty() {
        return Err(GroupFault::Form);
    }
    if name.as_bytes().contains(&b'/') {
        return Err(GroupFault::Slash);
    }
    let endpoint = Endpoint::of_url(rt, alloc, url).map_err(GroupFault::Endpoint)?;
    match name.as_bytes().to_vec(alloc) {
        Ok(name) => Ok(Origin::new(name, endpoint)),
        Err(_) => Err(GroupFault::Memory),
    }
}

// Puts an origin behind the others, of which none has its name. It shares the addresses of those at its host.
fn push_origin(origins: &mut Vec<Origin>, mut origin: Origin) -> Result<(), GroupFault> {
    if origins.iter().any(|other| other.has_name_of(&origin)) {
        return Err(GroupFault::Repeated);
    }
    if origins.len() >= MAX_GROUPS {
        return Err(GroupFault::Groups);
    }
    for other in origins.iter() {
        if origin.share_addresses(other).is_err() {
            return Err(GroupFault::Memory);
        }
    }
    match origins.push(origin) {
        Ok(()) => Ok(()),
        Err(_) => Err(GroupFault::Memory),
    }
}

/// The origins that the words name, or the first word that names none.
pub fn origins_of<'w, H: Net<Listener = TcpListener, Stream = TcpStream>>(
    rt: &H,
    alloc: Global,
    words: &[&'w str],
) -> Result<Vec<Origin>, BadGroup<'w>> {
    let mut origins = Vec::new(alloc);
    for word in words {
        let origin = match origin_of(rt, alloc, word) {
            Ok(origin) => origin,
            Err(fault) => return Err(BadGroup { word: *word, fault }),
        };
        if let Err(fault) = push_origin(&mut origins, origin) {
            return Err(BadGroup { word: *word, fault });
        }
    }
    Ok(origins)
}

/// The name in a word that names a group, and its origin or not.
pub(crate) fn name_in<'w>(word: &'w str) -> &'w str {
    match word.split_once('=') {
        Some((name, _)) => name,
        None => word,
    }
}

/// The first word whose group this source has.
pub fn first_in<'w, S: Source>(source: &S, words: &[&'w str]) -> Option<&'w str> {
    for word in words {
        if source.group(name_in(word).as_bytes()).is_some() {
            return Some(*word);
        }
    }
    None
}

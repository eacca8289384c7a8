//! What a server is, as it was begun.

use crate::counts::CacheLimits;
use crate::numbers::{Build, ServerBounds};

/// A group that is served, and what its cache may have.
#[derive(Drop)]
pub struct ServedGroup {
    pub name: Vec<u8>,
    pub limits: CacheLimits,
}

/// A service that is asked.
#[derive(Drop)]
pub struct ServedService {
    /// Its host and port, as the URL of its groups has them.
    pub name: Vec<u8>,
    /// Under which number is counted of it.
    pub number: usize,
}

/// What a server is, as it was begun.
#[derive(Clone, Copy)]
pub struct ServerFacts<'a> {
    /// Its groups, in the order of their numbers.
    pub groups: &'a [ServedGroup],
    /// The services that it asks.
    pub services: &'a [ServedService],
    /// How many loops it has.
    pub loops: usize,
    pub bounds: ServerBounds,
    pub build: Build<'a>,
}

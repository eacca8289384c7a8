//! What an access log is told of a reply.

use crate::start::TextStart;
use std::net::SocketAddr;
use std::time::Duration;

/// How the value of a reply was found.
#[derive(Clone, Copy, Debug, PartialEq, Eq)]
pub enum Found {
    /// The pool was not asked.
    Nothing,
    /// A cache had it.
    Hit,
    /// The request began its flight.
    Led,
    /// The request joined its flight.
    Joined,
}

/// What a request asked for.
#[derive(Clone, Copy)]
pub enum Asked {
    /// Its head or its target has a fault.
    Nothing,
    /// A group of this name, which is not served.
    NoGroup(TextStart),
    /// A key of the group with this number.
    Key(usize, TextStart),
}

/// A reply that was put.
#[derive(Clone, Copy)]
pub struct ReplyRecord {
    /// How long after the beginning of 1970 that was.
    pub time: Duration,
    /// The client's address, if the system tells it.
    pub client: Option<SocketAddr>,
    pub asked: Asked,
    pub status: u16,
    /// How many bytes its content has.
    pub bytes: usize,
    pub found: Found,
    /// How long after its request had come it was put.
    pub took: Duration,
}

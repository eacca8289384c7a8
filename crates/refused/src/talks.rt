//! Talks: what a client says to an exchange, and the replies that it is to get.
//!
//! The replies are written down from their forms (docs/DEFINITIONS.md, "Bodies and replies"; RFC 9112; groupcache's `http.go`).

use crate::connections::FIRST_REPLY;
use crate::pools::CACHE_BYTES;
use std::alloc::Global;

/// A request, and the reply to it.
#[derive(Clone, Copy)]
struct Said(&'static [u8], &'static [u8]);

const A: Said = Said(ASK_A, FIRST_REPLY);

const K: Said = Said(
    b"GET /_groupcache/echo/k HTTP/1.1\r\nHost: h\r\n\r\n",
    b"HTTP/1.1 200 OK\r\nContent-Type: application/x-protobuf\r\nContent-Length: 3\r\n\r\n\x0A\x01k",
);

const LAST: Said = Said(
    b"GET /_groupcache/echo/k HTTP/1.1\r\nHost: h\r\nConnection: close\r\n\r\n",
    b"HTTP/1.1 200 OK\r\nContent-Type: application/x-protobuf\r\nContent-Length: 3\r\nConnection: close\r\n\r\n\x0A\x01k",
);

// One behind a request that closes.
const UNANSWERED: Said = Said(ASK_A, b"");

const NO_GROUP: Said = Said(
    b"GET /_groupcache/nope/a HTTP/1.1\r\nHost: h\r\n\r\n",
    b"HTTP/1.1 404 Not Found\r\nContent-Type: text/plain; charset=utf-8\r\nX-Content-Type-Options: nosniff\r\n\
    Content-Length: 20\r\n\r\nno such group: nope\n",
);

const OUTSIDE: Said = Said(
    b"GET /other HTTP/1.1\r\nHost: h\r\n\r\n",
    b"HTTP/1.1 404 Not Found\r\nContent-Type: text/plain; charset=utf-8\r\nX-Content-Type-Options: nosniff\r\n\
    Content-Length: 19\r\n\r\n404 page not found\n",
);

const NO_NUMBER: Said = Said(
    b"GET /_groupcache/square/x HTTP/1.1\r\nHost: h\r\n\r\n",
    b"HTTP/1.1 500 Internal Server Error\r\nContent-Type: text/plain; charset=utf-8\r\nX-Content-Type-Options: nosniff\r\n\
    Content-Length: 13\r\n\r\nnot a number\n",
);

const ESCAPED: Said = Said(
    b"GET /_groupcache/echo/%61%2Fb HTTP/1.1\r\nHost: h\r\n\r\n",
    b"HTTP/1.1 200 OK\r\nContent-Type: application/x-protobuf\r\nContent-Length: 5\r\n\r\n\x0A\x03a/b",
);

const ASK_A: &[u8] = b"GET /_groupcache/echo/a HTTP/1.1\r\nHost: h\r\n\r\n";

const ASK_LONG: &[u8] = b"GET /_groupcache/fill/10000 HTTP/1.1\r\nHost: h\r\n\r\n";

// What stands before the value of 10,000 bytes in its reply.
const BEFORE_LONG: &[u8] =
    b"HTTP/1.1 200 OK\r\nContent-Type: application/x-protobuf\r\nContent-Length: 10003\r\n\r\n\x0A\x90\x4E";

/// What a client says. Where no request closes, its end comes behind the last one.
#[derive(Clone, Copy)]
pub enum Talk {
    /// A key, and another one twice, in one piece.
    Whole,
    /// The same, a few bytes at a time. As few of the replies go at a time.
    Pieces,
    /// A key so often that many tickets wait at once, and the bytes that come and go are more than the room that is kept.
    Many,
    /// A key twice whose value is kept.
    Kept,
    /// A group that there is not, a path outside, an error of the source, and a key.
    Faults,
    /// A key with escapes, and one without.
    Escaped,
    /// A key, a value that is lent, and a key.
    Long,
    /// A request that closes, and one behind it that gets no reply.
    Closing,
}

/// The text of a talk, and the replies to it.
#[derive(Drop)]
pub struct Script {
    pub text: Vec<u8>,
    pub replies: Vec<u8>,
    /// How many bytes the first replies have, for each count of them.
    whole: Vec<usize>,
}

impl Script {
    /// Whether so many bytes are a number of whole replies.
    pub fn is_whole(&self, sent: usize) -> bool {
        sent == 0 || self.whole.iter().any(|end| *end == sent)
    }

    // Adds a request, and the reply to it.
    fn say(&mut self, request: &[u8], reply: &[u8]) -> Option<()> {
        self.text.extend_from_slice(request).ok()?;
        self.replies.extend_from_slice(reply).ok()?;
        self.whole.push(self.replies.len()).ok()
    }
}

// A script of these requests and replies.
fn script_of(alloc: Global, all: &[Said]) -> Option<Script> {
    let mut script = Script {
        text: Vec::new(alloc),
        replies: Vec::new(alloc),
        whole: Vec::new(alloc),
    };
    for Said(request, reply) in all {
        script.say(request, reply)?;
    }
    Some(script)
}

// The reply with the value of 10,000 bytes.
fn long_reply(alloc: Global) -> Option<Vec<u8>> {
    let mut letters = Vec::new(alloc);
    letters.resize(10_000, b'x').ok()?;
    let mut reply = BEFORE_LONG.to_vec(alloc).ok()?;
    reply.extend_from_slice(&letters).ok()?;
    Some(reply)
}

// A value that is lent, between two that are not.
fn long_script(alloc: Global) -> Option<Script> {
    let reply = long_reply(alloc)?;
    let mut script = script_of(alloc, &[A])?;
    script.say(ASK_LONG, &reply)?;
    script.say(K.0, K.1)?;
    Some(script)
}

impl Talk {
    /// Its text, and the replies to it. None where memory is refused.
    pub fn script(self, alloc: Global) -> Option<Script> {
        match self {
            Talk::Whole | Talk::Pieces => script_of(alloc, &[A, K, K]),
            Talk::Many => script_of(alloc, &[K; 40]),
            Talk::Kept => script_of(alloc, &[K, K]),
            Talk::Faults => script_of(alloc, &[NO_GROUP, OUTSIDE, NO_NUMBER, K]),
            Talk::Escaped => script_of(alloc, &[ESCAPED, K]),
            Talk::Long => long_script(alloc),
            Talk::Closing => script_of(alloc, &[LAST, UNANSWERED]),
        }
    }

    /// How many bytes come and go at a time at most.
    pub fn step(self) -> usize {
        match self {
            Talk::Pieces => 7,
            _ => 20_000,
        }
    }

    /// Whether the value of the key `k` is kept before.
    pub fn is_kept(self) -> bool {
        matches!(self, Talk::Kept)
    }

    /// How many bytes each cache of its pool keeps.
    pub fn cache_bytes(self) -> u64 {
        if self.is_kept() { CACHE_BYTES } else { 0 }
    }

    /// What the seat asked, hit, led and joined by then, where nothing was refused.
    pub fn counts(self) -> [u64; 4] {
        match self {
            Talk::Whole => [3, 0, 2, 1],
            Talk::Pieces | Talk::Long => [3, 0, 3, 0],
            Talk::Many => [40, 0, 4, 36],
            Talk::Kept => [3, 2, 1, 0],
            Talk::Faults | Talk::Escaped => [2, 0, 2, 0],
            Talk::Closing => [1, 0, 1, 0],
        }
    }
}

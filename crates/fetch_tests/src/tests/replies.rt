//! What the origin of the tests replies to a target.

use std::alloc::{AllocError, Global};

/// What the origin does about a request.
#[derive(Drop)]
pub enum Reply {
    /// It sends this, and keeps the connection.
    Keep(Vec<u8>),
    /// It sends this after a while, and keeps the connection.
    KeepLate(Vec<u8>),
    /// It sends this, and closes the connection.
    Close(Vec<u8>),
    /// It sends nothing.
    Never,
    /// It ends, and closes all its connections.
    End,
}

// Keys, and what is sent for each.
type Table = &'static [(&'static [u8], &'static [u8])];

// What the origin closes the connection behind.
const CLOSED: Table = &[
    (b"cut", b"HTTP/1.1 200 OK\r\ncontent-length: 10\r\n\r\nabc"),
    (b"cut-head", b"HTTP/1.1 200 OK\r\ncontent-"),
    (b"until-close", b"HTTP/1.1 200 OK\r\n\r\nto the end"),
    (b"malformed", b"HELLO\r\n\r\n"),
    (b"silent", b""),
];

// What the origin keeps the connection behind.
const KEPT: Table = &[
    (
        b"missing",
        b"HTTP/1.1 404 Not Found\r\ncontent-length: 4\r\n\r\nnone",
    ),
    (
        b"broken",
        b"HTTP/1.1 500 Broken\r\ncontent-length: 2\r\n\r\nno",
    ),
    (
        b"long",
        b"HTTP/1.1 200 OK\r\ncontent-length: 1048577\r\n\r\n",
    ),
    (
        b"chunked",
        b"HTTP/1.1 200 OK\r\ntransfer-encoding: chunked\r\n\r\n3\r\nchu\r\n4\r\nnked\r\n0\r\n\r\n",
    ),
    (
        b"closing",
        b"HTTP/1.1 200 OK\r\nconnection: close\r\ncontent-length: 7\r\n\r\nclosing",
    ),
    (
        b"missing-closing",
        b"HTTP/1.1 404 Not Found\r\nconnection: close\r\ncontent-length: 0\r\n\r\n",
    ),
    (
        b"early",
        b"HTTP/1.1 103 Early Hints\r\n\r\nHTTP/1.1 200 OK\r\ncontent-length: 5\r\n\r\nearly",
    ),
    (
        b"more",
        b"HTTP/1.1 200 OK\r\ncontent-length: 4\r\n\r\nmoreHTTP/1.1 200 OK\r\ncontent-length: 5\r\n\r\nwrong",
    ),
];

// The text for a key, if there is one.
fn text_for(table: Table, key: &[u8]) -> Option<&'static [u8]> {
    for row in table {
        if row.0 == key {
            return Some(row.1);
        }
    }
    None
}

// The reply whose value is the key.
fn echo(alloc: Global, key: &[u8]) -> Result<Vec<u8>, AllocError> {
    let mut text = b"HTTP/1.1 200 OK\r\ncontent-length: ".to_vec(alloc)?;
    let digits = format!(in alloc; "{}\r\n\r\n", key.len())?;
    text.extend_from_slice(digits.as_bytes())?;
    text.extend_from_slice(key)?;
    Ok(text)
}

/// The reply to the request for a key, which is the first on its connection or not.
pub fn reply_to(alloc: Global, key: &[u8], is_first: bool) -> Result<Reply, AllocError> {
    if let Some(text) = text_for(CLOSED, key) {
        return Ok(Reply::Close(text.to_vec(alloc)?));
    }
    if let Some(text) = text_for(KEPT, key) {
        return Ok(Reply::Keep(text.to_vec(alloc)?));
    }
    if key.starts_with(b"stale") && !is_first {
        return Ok(Reply::Close(Vec::new(alloc)));
    }
    if key == b"slow".as_slice() {
        return Ok(Reply::KeepLate(echo(alloc, key)?));
    }
    if key.starts_with(b"late") {
        return Ok(Reply::Never);
    }
    if key == b"end".as_slice() {
        return Ok(Reply::End);
    }
    Ok(Reply::Keep(echo(alloc, key)?))
}

//! Which request a fetch sends, and which connections may be used again.
use super::driven::{End, ONE_PIECE, fetch};
use peer_http::{Field, FieldFault, are_same};
use peer_origin::request;
use std::alloc::Global;

// The request for the key.
const REQUEST: &[u8] =
    b"GET /p/a%2Fb%20c HTTP/1.1\r\nhost: origin:81\r\nuser-agent: peer_front\r\n\r\n";

// A whole reply, behind which the connection may be used again.
const REPLY: &[u8] = b"HTTP/1.1 200 OK\r\nContent-Length: 5\r\n\r\nvalue";

// Whether this is the request for a key of an origin.
fn is_asked(alloc: Global, host: &[u8], prefix: &[u8], key: &[u8], want: &[u8]) -> bool {
    match request(alloc, host, prefix, &[], key) {
        Ok(asked) => asked.bytes.as_slice() == want,
        Err(_) => false,
    }
}

#[test]
fn asks_for_the_key(rt: HostRuntime) {
    assert!(rt; is_asked(rt.alloc(), b"origin:81", b"/p/", b"a/b c", REQUEST));
}

// The same request with two fields of its group.
const REQUEST_WITH_FIELDS: &[u8] =
    b"GET /p/k HTTP/1.1\r\nhost: o\r\nuser-agent: peer_front\r\nAuthorization: Bearer a b\r\nx-empty: \r\n\r\n";

// These two fields, if they are fields.
fn two(alloc: Global, value: &[u8]) -> Option<Vec<Field>> {
    let mut fields = Vec::new(alloc);
    fields
        .push(Field::new(alloc, b"Authorization", value).ok()?)
        .ok()?;
    fields.push(Field::new(alloc, b"x-empty", b"").ok()?).ok()?;
    Some(fields)
}

// Whether the request with two fields is this.
fn is_asked_with(alloc: Global, want: &[u8]) -> bool {
    let Some(fields) = two(alloc, b" \tBearer a b\t ") else {
        return false;
    };
    match request(alloc, b"o", b"/p/", fields.as_slice(), b"k") {
        Ok(asked) => asked.bytes.as_slice() == want,
        Err(_) => false,
    }
}

// Whether two fields are the same as two with this value.
fn are_as_with(alloc: Global, value: &[u8]) -> bool {
    match (two(alloc, b"v"), two(alloc, value)) {
        (Some(fields), Some(others)) => are_same(fields.as_slice(), others.as_slice()),
        _ => false,
    }
}

#[test]
fn asks_with_the_fields_of_the_group(rt: HostRuntime) {
    let alloc = rt.alloc();
    assert!(rt; is_asked_with(alloc, REQUEST_WITH_FIELDS));
    assert!(rt; are_as_with(alloc, b"v "));
    assert!(rt; !are_as_with(alloc, b"w"));
}

// Why this is no field, if it is none.
fn fault_of(alloc: Global, name: &[u8], value: &[u8]) -> Option<FieldFault> {
    Field::new(alloc, name, value).err()
}

#[test]
fn some_texts_are_no_fields(rt: HostRuntime) {
    let alloc = rt.alloc();
    assert!(rt; fault_of(alloc, b"a b", b"v") == Some(FieldFault::Name));
    assert!(rt; fault_of(alloc, b"HOST", b"v") == Some(FieldFault::Own));
    assert!(rt; fault_of(alloc, b"a", b"v\r\nb: c") == Some(FieldFault::Value));
    assert!(rt; fault_of(alloc, b"a", b"caf\xe9\tb") == None);
}

// Whether the connection of a fetch may be used again behind this text.
fn again(alloc: Global, text: &[u8], want: bool) -> bool {
    match fetch(alloc, text, ONE_PIECE, End::Closed) {
        Some(fetched) => fetched.keeps == want,
        None => false,
    }
}

// Replies, and whether their connection may be used again.
const AGAIN: [(&[u8], bool); 11] = [
    (REPLY, true),
    (b"HTTP/1.1 404 Not Found\r\nContent-Length: 0\r\n\r\n", true),
    (
        b"HTTP/1.1 200 OK\r\nContent-Length: 5\r\n\r\nvalueHTTP/1.1 200 OK\r\n\r\n",
        false,
    ),
    (
        b"HTTP/1.1 200 OK\r\nContent-Length: 5\r\n\r\nvalue\n",
        false,
    ),
    (
        b"HTTP/1.1 200 OK\r\nConnection: close\r\nContent-Length: 5\r\n\r\nvalue",
        false,
    ),
    (
        b"HTTP/1.1 404 Not Found\r\nConnection: close\r\nContent-Length: 0\r\n\r\n",
        false,
    ),
    (
        b"HTTP/1.0 404 Not Found\r\nContent-Length: 0\r\n\r\n",
        false,
    ),
    (b"HTTP/1.0 200 OK\r\nContent-Length: 5\r\n\r\nvalue", false),
    (b"HTTP/1.1 200 OK\r\n\r\nvalue", false),
    (b"HTTP/1.1 200 OK\r\nContent-Length: 6\r\n\r\nvalue", false),
    (b"", false),
];

#[test]
fn uses_a_connection_again_where_nothing_is_left_on_it(rt: HostRuntime) {
    for (text, want) in AGAIN {
        assert!(rt; again(rt.alloc(), text, want), "{text:?}");
    }
}

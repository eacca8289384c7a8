//! Replies that close their connection.

use super::runs::demand_each;
use stream_model::FOUND_K_LAST;

/// GET of the key `a` of the group `echo`, which closes its connection.
pub const ASK_A_LAST: &[u8] =
    b"GET /_groupcache/echo/a HTTP/1.1\r\nHost: h\r\nConnection: close\r\n\r\n";

/// Its reply.
pub const FOUND_A_LAST: &[u8] =
    b"HTTP/1.1 200 OK\r\nContent-Type: application/x-protobuf\r\nContent-Length: 3\r\nConnection: close\r\n\r\n\x0A\x01a";

// Three requests, of which the second closes; one of the older version; and one whose target has a fault.
const CLOSING: [(&[u8], &[u8]); 3] = [
    (
        b"GET /_groupcache/echo/a HTTP/1.1\r\nHost: h\r\n\r\n\
        GET /_groupcache/echo/b HTTP/1.1\r\nHost: h\r\nConnection: Keep-Alive, CLOSE\r\n\r\n\
        GET /_groupcache/echo/c HTTP/1.1\r\nHost: h\r\n\r\n",
        b"HTTP/1.1 200 OK\r\nContent-Type: application/x-protobuf\r\nContent-Length: 3\r\n\r\n\x0A\x01a\
        HTTP/1.1 200 OK\r\nContent-Type: application/x-protobuf\r\nContent-Length: 3\r\nConnection: close\r\n\r\n\x0A\x01b",
    ),
    (b"GET /_groupcache/echo/k HTTP/1.0\r\n\r\n", FOUND_K_LAST),
    (
        b"POST /other HTTP/1.1\r\nHost: h\r\nconnection: close\r\n\r\n",
        b"HTTP/1.1 405 Method Not Allowed\r\nAllow: GET, HEAD\r\nContent-Length: 0\r\nConnection: close\r\n\r\n",
    ),
];

#[test]
fn nothing_follows_a_closing_reply(rt: HostRuntime) {
    demand_each(&rt, &CLOSING);
}

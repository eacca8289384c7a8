//! What is answered to each target, and texts that are refused: targets, groups, methods, lengths, hosts and heads.

use super::runs::{demand_all_ways, demand_each, demand_told};
use peer_conn::End;
use std::process::Abort;
use std::sync::Wait;
use std::thread::Threads;
use stream_model::{ASK_K, FOUND_K, Then, Told, joined, reply};

// Demands one closing fault for a head, and no reply to the request behind it.
fn demand_closing_fault(
    rt: &(impl Abort + AllocGlobal + Threads + Wait + Sync),
    head: &[u8],
    status: &str,
    text: &str,
) {
    let asked = joined(rt.alloc(), &[head, ASK_K]).expect(rt, "memory");
    let told = Told::Text(status, text.as_bytes());
    let replies = reply(rt.alloc(), Then::Closes, told).expect(rt, "memory");
    demand_each(rt, &[(&asked, &replies)]);
}

// Two requests whose targets have faults, or the first of which has one, and their replies. A length of zeros is no content.
const OPEN: [(&[u8], &[u8]); 3] = [
    (
        b"GET /_groupcache/echo HTTP/1.1\r\nHost: h\r\n\r\nGET /_groupcache/echo/k HTTP/1.1\r\nHost: h\r\n\r\n",
        b"HTTP/1.1 400 Bad Request\r\nContent-Type: text/plain; charset=utf-8\r\nX-Content-Type-Options: nosniff\r\n\
        Content-Length: 12\r\n\r\nbad request\nHTTP/1.1 200 OK\r\nContent-Type: application/x-protobuf\r\n\
        Content-Length: 3\r\n\r\n\x0A\x01k",
    ),
    (
        b"GET /_groupcache/echo/%G1 HTTP/1.1\r\nHost: h\r\n\r\nGET /other HTTP/1.1\r\nHost: h\r\n\r\n",
        b"HTTP/1.1 400 Bad Request\r\nContent-Type: text/plain; charset=utf-8\r\nX-Content-Type-Options: nosniff\r\n\
        Content-Length: 11\r\n\r\nbad escape\nHTTP/1.1 404 Not Found\r\nContent-Type: text/plain; charset=utf-8\r\n\
        X-Content-Type-Options: nosniff\r\nContent-Length: 19\r\n\r\n404 page not found\n",
    ),
    (
        b"GET /_groupcache/echo/k HTTP/1.1\r\nHost: h\r\nContent-Length: 00\r\n\r\n",
        FOUND_K,
    ),
];

#[test]
fn faults_of_targets_stay_open(rt: HostRuntime) {
    demand_each(&rt, &OPEN);
}

const BAD: &str = "400 Bad Request";

const NOT_FOUND: &str = "404 Not Found";

const FAILED: &str = "500 Internal Server Error";

// Targets, and what is told of each.
const TARGETS: [(&str, Told<'static>); 22] = [
    ("/_groupcache/echo/a%2Fb+c", Told::Value(b"\x0A\x05a/b+c")),
    ("/_groupcache/echo/%ff", Told::Value(b"\x0A\x01\xFF")),
    ("/%5Fgroupcache/echo%2Fk", Told::Value(b"\x0A\x01k")),
    ("/_groupcache/echo/%3F?x=%G1", Told::Value(b"\x0A\x01?")),
    ("/_groupcache/echo/", Told::Value(b"\x0A\x00")),
    (
        "http://10.0.0.2:8000/_groupcache/echo/k",
        Told::Value(b"\x0A\x01k"),
    ),
    ("/_groupcache/square/12", Told::Value(b"\x0A\x03144")),
    ("/_groupcache/square/007", Told::Value(b"\x0A\x0249")),
    ("/_groupcache/square/x", Told::Text(FAILED, b"not a number")),
    (
        "/_groupcache/fill/1048577",
        Told::Text(FAILED, b"value too long"),
    ),
    (
        "/_groupcache/fill/2000001",
        Told::Text(FAILED, b"not a size"),
    ),
    ("/_groupcache/", Told::Text(BAD, b"bad request")),
    (
        "/_groupcache/nope/k",
        Told::Text(NOT_FOUND, b"no such group: nope"),
    ),
    ("/_groupcache//k", Told::Text(NOT_FOUND, b"no such group: ")),
    (
        "/_groupcache/a%2Fb/c",
        Told::Text(NOT_FOUND, b"no such group: a"),
    ),
    ("/_groupcache", Told::Text(NOT_FOUND, b"404 page not found")),
    ("HTTP://h", Told::Text(NOT_FOUND, b"404 page not found")),
    ("/other", Told::Text(NOT_FOUND, b"404 page not found")),
    ("/_groupcache/echo/%G1", Told::Text(BAD, b"bad escape")),
    ("/other%2", Told::Text(BAD, b"bad escape")),
    (
        "https://h/_groupcache/echo/k",
        Told::Text(BAD, b"bad target"),
    ),
    ("*", Told::Text(BAD, b"bad target")),
];

#[test]
fn each_target_is_answered(rt: HostRuntime) {
    for (target, told) in TARGETS {
        demand_told(&rt, target, told);
    }
}

// The reply to a method that is not served, and the value that is asked for behind it.
const NOT_ALLOWED_AND_K: &[u8] =
    b"HTTP/1.1 405 Method Not Allowed\r\nAllow: GET, HEAD\r\nContent-Length: 0\r\n\r\n\
    HTTP/1.1 200 OK\r\nContent-Type: application/x-protobuf\r\nContent-Length: 3\r\n\r\n\x0A\x01k";

// Each is told not to be served, and the request behind it is answered.
#[test]
fn other_methods_are_not_allowed(rt: HostRuntime) {
    let line = b" /_groupcache/echo/k HTTP/1.1\r\nHost: h\r\n\r\n".as_slice();
    for method in ["POST", "head", "get", "GE", "GETS", "HEADS"] {
        let asked = joined(rt.alloc(), &[method.as_bytes(), line, ASK_K]).expect(&rt, "memory");
        demand_each(&rt, &[(&asked, NOT_ALLOWED_AND_K)]);
    }
}

// Heads whose fault closes: one host is needed, content is refused, and lines end in pairs.
const CLOSING: [(&[u8], &str, &str); 9] = [
    (b"GET /_groupcache/echo/k HTTP/1.1\r\n\r\n", BAD, "bad host"),
    (
        b"GET /_groupcache/echo/k HTTP/1.1\r\nHost: h\r\nHost: h\r\n\r\n",
        BAD,
        "bad host",
    ),
    (
        b"GET /_groupcache/echo/k HTTP/1.0\r\nHost: h\r\nhost: i\r\n\r\n",
        BAD,
        "bad host",
    ),
    (
        b"POST /_groupcache/echo/k HTTP/1.1\r\nHost: h\r\nContent-Length: 3\r\n\r\n",
        "413 Content Too Large",
        "content not accepted",
    ),
    (
        b"GET /_groupcache/echo/k HTTP/1.1\r\nHost: h\r\nContent-Length: +1\r\n\r\n",
        BAD,
        "bad content length",
    ),
    (
        b"GET /_groupcache/echo/k HTTP/1.1\r\nHost: h\r\nContent-Length: 0\r\nContent-Length: 00\r\n\r\n",
        BAD,
        "bad content length",
    ),
    (
        b"GET /_groupcache/echo/k HTTP/1.1\r\nHost: h\r\nContent-Length: 0, 0\r\n\r\n",
        BAD,
        "bad content length",
    ),
    (
        b"GET /_groupcache/echo/k HTTP/1.1\r\nHost: h\r\nTransfer-Encoding: chunked\r\nContent-Length: 5\r\n\r\n",
        "501 Not Implemented",
        "transfer coding not supported",
    ),
    (
        b"GET /_groupcache/echo/k HTTP/1.1\nHost: h\r\n\r\n",
        BAD,
        "bad head",
    ),
];

#[test]
fn a_closing_fault_is_the_last_reply(rt: HostRuntime) {
    for (head, status, text) in CLOSING {
        demand_closing_fault(&rt, head, status, text);
    }
    let unended = b"GET /_groupcache/echo/k HTTP/1.1\nHost: h\n\n";
    demand_all_ways(&rt, unended, b"", End::Cut);
}

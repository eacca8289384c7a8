//! Found values: what Go's own client asks for, and values of each length.

use super::demos::{Failing, demo, is_served_over};
use super::runs::{demand, demand_each, whole};
use peer_conn::End;
use stream_model::{FOUND_K, add_repeated, request};

/// What Go's own client sends for the key `k` of the group `echo`.
pub const GO_REQUEST: &[u8] =
    b"GET /_groupcache/echo/k HTTP/1.1\r\nHost: 10.0.0.2:8000\r\nUser-Agent: Go-http-client/1.1\r\nAccept-Encoding: gzip\r\n\r\n";

#[test]
fn answers_what_go_sends(rt: HostRuntime) {
    demand_each(&rt, &[(GO_REQUEST, FOUND_K)]);
}

// Targets, what the reply to each begins with, and how many bytes `x` its value has.
const FILLED: [(&str, &[u8], usize); 3] = [
    (
        "/_groupcache/fill/128",
        b"HTTP/1.1 200 OK\r\nContent-Type: application/x-protobuf\r\nContent-Length: 131\r\n\r\n\x0A\x80\x01",
        128,
    ),
    (
        "/_groupcache/fill/16384",
        b"HTTP/1.1 200 OK\r\nContent-Type: application/x-protobuf\r\nContent-Length: 16388\r\n\r\n\x0A\x80\x80\x01",
        16_384,
    ),
    (
        "/_groupcache/fill/1048576",
        b"HTTP/1.1 200 OK\r\nContent-Type: application/x-protobuf\r\nContent-Length: 1048580\r\n\r\n\x0A\x80\x80\x40",
        1_048_576,
    ),
];

#[test]
fn fills_up_to_the_limit(rt: HostRuntime) {
    for (target, begin, count) in FILLED {
        let text = request(rt.alloc(), target).expect(&rt, "memory");
        let mut reply = begin.to_vec(rt.alloc()).expect(&rt, "memory");
        add_repeated(&mut reply, b"x", count).expect(&rt, "memory");
        demand(&rt, whole(&rt, &text), &reply, End::Clean);
        let told = (reply.as_slice(), End::Clean);
        let right = is_served_over(&rt, demo(2, 4), whole(&rt, &text), Failing::Nothing, told);
        assert!(rt; right, "at {target}");
    }
}

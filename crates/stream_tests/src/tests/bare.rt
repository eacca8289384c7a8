//! HEAD: the reply to GET without its content.

use super::runs::demand_each;

// The third one is a value that is asked for with its content, behind one without. The last head is broken, so that its method is
// not known, and its reply has its content.
const ROWS: [(&[u8], &[u8]); 10] = [
    (
        b"HEAD /_groupcache/echo/k HTTP/1.1\r\nHost: h\r\n\r\n",
        b"HTTP/1.1 200 OK\r\nContent-Type: application/x-protobuf\r\nContent-Length: 3\r\n\r\n",
    ),
    (
        b"HEAD /_groupcache/fill/20000 HTTP/1.0\r\n\r\n",
        b"HTTP/1.1 200 OK\r\nContent-Type: application/x-protobuf\r\nContent-Length: 20004\r\nConnection: close\r\n\r\n",
    ),
    (
        b"HEAD /_groupcache/echo/k HTTP/1.1\r\nHost: h\r\n\r\nGET /_groupcache/echo/k HTTP/1.1\r\nHost: h\r\n\r\n",
        b"HTTP/1.1 200 OK\r\nContent-Type: application/x-protobuf\r\nContent-Length: 3\r\n\r\nHTTP/1.1 200 OK\r\n\
        Content-Type: application/x-protobuf\r\nContent-Length: 3\r\n\r\n\x0A\x01k",
    ),
    (
        b"HEAD /_groupcache/square/x HTTP/1.1\r\nHost: h\r\n\r\n",
        b"HTTP/1.1 500 Internal Server Error\r\nContent-Type: text/plain; charset=utf-8\r\nX-Content-Type-Options: nosniff\r\n\
        Content-Length: 13\r\n\r\n",
    ),
    (
        b"HEAD /other HTTP/1.1\r\nHost: h\r\n\r\n",
        b"HTTP/1.1 404 Not Found\r\nContent-Type: text/plain; charset=utf-8\r\nX-Content-Type-Options: nosniff\r\n\
        Content-Length: 19\r\n\r\n",
    ),
    (
        b"HEAD /_groupcache/nope/k HTTP/1.1\r\nHost: h\r\n\r\n",
        b"HTTP/1.1 404 Not Found\r\nContent-Type: text/plain; charset=utf-8\r\nX-Content-Type-Options: nosniff\r\n\
        Content-Length: 20\r\n\r\n",
    ),
    (
        b"HEAD /_groupcache/echo/k HTTP/1.1\r\n\r\n",
        b"HTTP/1.1 400 Bad Request\r\nContent-Type: text/plain; charset=utf-8\r\nX-Content-Type-Options: nosniff\r\n\
        Content-Length: 9\r\nConnection: close\r\n\r\n",
    ),
    (
        b"HEAD / HTTP/1.1\r\nHost: h\r\nTransfer-Encoding: chunked\r\n\r\n",
        b"HTTP/1.1 501 Not Implemented\r\nContent-Type: text/plain; charset=utf-8\r\nX-Content-Type-Options: nosniff\r\n\
        Content-Length: 30\r\nConnection: close\r\n\r\n",
    ),
    (
        b"head /_groupcache/echo/k HTTP/1.1\r\nHost: h\r\n\r\n",
        b"HTTP/1.1 405 Method Not Allowed\r\nAllow: GET, HEAD\r\nContent-Length: 0\r\n\r\n",
    ),
    (
        b"HEAD /_groupcache/echo/k HTTP/1.1\nHost: h\r\n\r\n",
        b"HTTP/1.1 400 Bad Request\r\nContent-Type: text/plain; charset=utf-8\r\nX-Content-Type-Options: nosniff\r\n\
        Content-Length: 9\r\nConnection: close\r\n\r\nbad head\n",
    ),
];

#[test]
fn a_reply_to_head_has_no_content(rt: HostRuntime) {
    demand_each(&rt, &ROWS);
}

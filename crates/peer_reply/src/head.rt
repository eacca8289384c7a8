//! The heads of replies: what stands before the content.
ghost use Rattle.std.specs.Prelude.{◌≡◌, ◌+◌, ◌≤◌, ◌<◌, ℕ, ◌++◌, length, decimal};
ghost use Rattle.peer_reply.specs.Texts.{crlf, connection_field};

use arrayvec::ArrayVec;
use itoa::Buffer;

/// How many bytes the head of any reply has at most.
pub const HEAD_ROOM: usize = 256;

/// Room for the head of a reply. It is made once, and each reply writes over it.
pub type HeadRoom = ArrayVec<u8, HEAD_ROOM>;

/// What stands before the number of the content length, for each status.
pub const VALUE: &[u8] =
    b"HTTP/1.1 200 OK\r\nContent-Type: application/x-protobuf\r\nContent-Length: ";

pub const BAD_REQUEST: &[u8] =
    b"HTTP/1.1 400 Bad Request\r\nContent-Type: text/plain; charset=utf-8\r\nX-Content-Type-Options: nosniff\r\nContent-Length: ";

pub const NOT_FOUND: &[u8] =
    b"HTTP/1.1 404 Not Found\r\nContent-Type: text/plain; charset=utf-8\r\nX-Content-Type-Options: nosniff\r\nContent-Length: ";

pub const METHOD_NOT_ALLOWED: &[u8] =
    b"HTTP/1.1 405 Method Not Allowed\r\nAllow: GET, HEAD\r\nContent-Length: ";

pub const CONTENT_TOO_LARGE: &[u8] =
    b"HTTP/1.1 413 Content Too Large\r\nContent-Type: text/plain; charset=utf-8\r\nX-Content-Type-Options: nosniff\r\nContent-Length: ";

pub const HEAD_TOO_LARGE: &[u8] =
    b"HTTP/1.1 431 Request Header Fields Too Large\r\nContent-Type: text/plain; charset=utf-8\r\n\
      X-Content-Type-Options: nosniff\r\nContent-Length: ";

pub const INTERNAL_ERROR: &[u8] =
    b"HTTP/1.1 500 Internal Server Error\r\nContent-Type: text/plain; charset=utf-8\r\nX-Content-Type-Options: nosniff\r\nContent-Length: ";

pub const NOT_IMPLEMENTED: &[u8] =
    b"HTTP/1.1 501 Not Implemented\r\nContent-Type: text/plain; charset=utf-8\r\nX-Content-Type-Options: nosniff\r\nContent-Length: ";

/// Writes the head of a reply whose content has this length over what is in the room.
pub fn write_head(room: &mut HeadRoom, start: &[u8], content: u64, closing: bool)
    requires { length start.now ≤ 160 }
    ensures { room.new.items ≡ start.now ++ decimal content ++ crlf ++ connection_field closing ++ crlf }
{
    room.clear();
    append(room, start);
    append(room, Buffer::new().format(content).as_bytes());
    if closing {
        append(room, b"\r\nConnection: close\r\n\r\n");
    } else {
        append(room, b"\r\n\r\n");
    }
}

// Appends what has room.
fn append(room: &mut HeadRoom, part: &[u8])
    requires { length room.old.items + length part.now ≤ HEAD_ROOM }
    ensures { room.new.items ≡ room.old.items ++ part.now }
{
    match room.try_extend_from_slice(part) {
        Ok(()) => {}
        Err(_) => unreachable!(),
    }
}

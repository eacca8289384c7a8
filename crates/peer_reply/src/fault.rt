//! The faults of a request, each of which is answered by a reply of its own.
ghost use Rattle.std.specs.Prelude.{◌≡◌, ◌≤◌, Bool, [], ◌∷◌, ◌++◌, length, cond, decimal};
ghost use Rattle.peer_reply.specs.Texts.{crlf, connection_field, fault_reply, group_name};

use crate::head::{
    BAD_REQUEST, CONTENT_TOO_LARGE, HEAD_TOO_LARGE, METHOD_NOT_ALLOWED, NOT_FOUND, NOT_IMPLEMENTED,
};
use peer_view::ByteView;

/// Why a request gets no value, in the order in which they apply. The first six always close the connection.
#[derive(Drop)]
pub enum Fault {
    /// The head, with the pairs CR LF before it, is longer than the limit (RFC 6585, section 5).
    TooLong,
    /// The block is no request head (RFC 9112, sections 2 to 5).
    NotAHead,
    /// There is a transfer coding, and none is known (RFC 9112, section 6.1).
    TransferCoding,
    /// The content length is no number, or there are several that differ (RFC 9112, section 6.3).
    BadLength,
    /// There is content, and none is accepted (RFC 9110, section 15.5.14).
    Content,
    /// There are several hosts, or HTTP/1.1 has none (RFC 9112, section 3.2).
    Host,
    /// The method is neither GET nor HEAD (RFC 9110, section 15.5.6).
    Method,
    /// The target is neither a path nor an `http` URI (RFC 9112, section 3.2).
    Target,
    /// A `%` of the path is not followed by two hexadecimal digits (RFC 3986, section 2.1).
    Escape,
    /// The path is not below the base path (`ServeHTTP` of `http.go`).
    Outside,
    /// The path has a group and no key (`ServeHTTP` of `http.go`).
    NoKey,
    /// No group has this name (`ServeHTTP` of `http.go`).
    NoGroup(ByteView),
}

/// What the reply to a fault says: what stands before the number of its content length, the text of the program's own
/// in its content, and what ends the content.
#[derive(Clone, Copy)]
pub(crate) struct Line {
    pub(crate) start: &'static [u8],
    pub(crate) text: &'static [u8],
    pub(crate) ending: &'static [u8],
}

// A line with a text, which ends in a newline.
fn text_line(start: &'static [u8], text: &'static [u8]) -> Line
    ensures start { result.start.now ≡ start.now }
    ensures text { result.text.now ≡ text.now }
    ensures ending { result.ending.now ≡ 10 ∷ [] }
{
    Line {
        start,
        text,
        ending: b"\n",
    }
}

impl Fault {
    /// What the reply says. The name of a group that is not there stands behind the text.
    pub(crate) fn line(&self) -> Line
        ensures start { length result.start.now ≤ 160 }
        ensures text { length result.text.now ≤ 40 }
        ensures ending { length result.ending.now ≤ 1 }
        ensures reply { (closing bare : Bool) → let content = result.text.now ++ group_name self.now ++ result.ending.now in
            fault_reply closing bare self.now ≡ result.start.now ++ decimal (length content) ++ crlf ++ connection_field closing ++ crlf
            ++ cond bare [] content }
    {
        match self {
            Fault::TooLong => text_line(HEAD_TOO_LARGE, b"head too long"),
            Fault::NotAHead => text_line(BAD_REQUEST, b"bad head"),
            Fault::TransferCoding => text_line(NOT_IMPLEMENTED, b"transfer coding not supported"),
            Fault::BadLength => text_line(BAD_REQUEST, b"bad content length"),
            Fault::Content => text_line(CONTENT_TOO_LARGE, b"content not accepted"),
            Fault::Host => text_line(BAD_REQUEST, b"bad host"),
            Fault::Method => Line {
                start: METHOD_NOT_ALLOWED,
                text: b"",
                ending: b"",
            },
            Fault::Target => text_line(BAD_REQUEST, b"bad target"),
            Fault::Escape => text_line(BAD_REQUEST, b"bad escape"),
            Fault::Outside => text_line(NOT_FOUND, b"404 page not found"),
            Fault::NoKey => text_line(BAD_REQUEST, b"bad request"),
            Fault::NoGroup(_) => text_line(NOT_FOUND, b"no such group: "),
        }
    }

    /// The name of the group that is not there, and nothing for another fault.
    pub(crate) fn name(&self) -> &[u8]
        ensures { result.now ≡ group_name self.now }
    {
        match self {
            Fault::NoGroup(name) => name.as_slice(),
            _ => b"",
        }
    }
}

//! What is wrong with the bytes at the front of a stream, in the order in which it is told.

/// Why a head is refused. The connection closes after the reply to any of these.
#[derive(Clone, Copy, Debug, PartialEq, Eq)]
pub enum HeadFault {
    /// No head ends within the limit.
    TooLong,
    /// The block is no request head.
    NotAHead,
    /// A field `Transfer-Encoding` is there (RFC 9112, section 6.1).
    TransferCoding,
    /// A `Content-Length` is not digits, or two of them differ (RFC 9112, section 6.3).
    BadLength,
    /// The request announces content.
    Content,
    /// The fields `Host` are too many, or HTTP/1.1 has none (RFC 9112, section 3.2).
    Host,
}

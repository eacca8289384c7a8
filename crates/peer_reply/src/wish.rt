//! What a request asks for.

use crate::fault::Fault;
use peer_source::GroupId;
use peer_view::ByteView;

/// What the reply to a request is to say.
#[derive(Drop)]
pub enum WishBody {
    /// That the request has a fault.
    Fault(Fault),
    /// What the source answers for a group and a key.
    Get(GroupId, ByteView),
}

/// In what form a reply goes out.
#[derive(Clone, Copy, Debug)]
pub struct ReplyForm {
    /// It closes the connection (RFC 9112, section 9.6).
    pub closing: bool,
    /// It goes without its content (RFC 9110, section 9.3.2).
    pub bare: bool,
}

/// A request: what its reply is to say, whether it closes the connection, and whether it goes without its content.
#[derive(Drop)]
pub struct Wish {
    pub body: WishBody,
    pub closing: bool,
    pub bare: bool,
}

//! A whole reply.

/// A whole reply.
#[derive(Drop)]
pub struct Reply {
    /// From 200 to 999.
    pub status: u16,
    /// The body.
    pub value: Vec<u8>,
    /// Whether another request may be sent on the connection.
    pub keeps: bool,
}

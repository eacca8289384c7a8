//! Tickets: the wishes of a connection on their way from its reader to its writer.
use peer_flight::Claim;
use peer_reply::Fault;
use peer_source::Source;

/// How many tickets of a connection wait at most.
pub const MAX_TICKETS: usize = 64;

/// What the reply answers.
#[derive(Drop)]
pub enum Body<S: Source> {
    /// The request gets no value.
    Fault(Fault),
    /// The value is there, or comes with a flight.
    Claim(Claim<S>),
}

/// A request in its turn.
#[derive(Drop)]
pub struct Ticket<S: Source> {
    /// The reply closes the connection (RFC 9112, section 9.6).
    pub closing: bool,
    /// The reply has no content (RFC 9110, section 9.3.2).
    pub bare: bool,
    pub body: Body<S>,
}

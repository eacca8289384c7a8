//! A connection as a state, without input or output.
//!
//! It stands on the wishes and tickets of `peer_wish`, the pool of `peer_fill`, the replies of `peer_reply`, what waits to
//! be sent of `peer_outbox`, and the records of `peer_access`. It promises, at every moment, that what was sent is a front of the replies to what came; and
//! once it is over, which replies were sent.
#![tactic(auto)]

mod answering;
mod asking;
mod exchange;
mod exchange_state;
mod intake;
mod known;
mod marks;
mod outgoing;
mod reply_counts;
mod reply_notes;
mod rest;
mod window;

pub use exchange::Exchange;
pub use intake::GivenUp;
pub use peer_wish::End;
pub use reply_counts::ReplyCounts;
pub use reply_notes::ReplyNotes;
pub use rest::Rest;

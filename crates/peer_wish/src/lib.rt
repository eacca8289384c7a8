//! The requests of a connection: what each asks for, the ticket by which it waits in its turn, and what the replies are.
//!
//! It stands on the heads of `peer_head`, the places of `peer_path`, the names of `peer_source`, the replies of
//! `peer_reply` and the claims of `peer_flight`. It promises the wish of a head and the next wish of the bytes that are
//! held, and what holds of the wishes of every text and of the replies to them.
#![tactic(auto)]

mod end;
mod head_names;
mod last_head;
pub mod laws;
mod ticket;
mod wish;

pub use end::End;
pub use head_names::HeadNames;
pub use ticket::{Body, MAX_TICKETS, Ticket};
pub use wish::{
    LentBody, LentWish, MAX_REPLIES, Next, closes_after, next_kept, next_wish, wish_of,
};

//! Connections over a reader and a writer: the requests of a stream, each with its reply, in order, and how it ends.
//!
//! It stands on the wishes of `peer_wish`, the heads of `peer_head`, the sources and fills of `peer_source`, the replies of
//! `peer_reply`, the readers and writers of `peer_view`, and, where the reader and the writer have threads of their own, on
//! the pool of `peer_fill` and the lanes of `peer_lane`. It promises that what is written is the replies to what was read,
//! as the end of the call says.
#![tactic(auto)]

mod connection;
mod end;
mod halves;
mod reader_side;
mod requests;
mod responses;
mod serial;
mod write_buffer;
mod writer_side;

pub use connection::{serve_connection, serve_connection_functional};
pub use end::Served;
pub use peer_wish::{End, wish_of};
pub use serial::{serve_functional, serve_serial, serve_told};

/// How many reads a server makes at most from one connection.
pub const READS: u64 = 1_000_000;

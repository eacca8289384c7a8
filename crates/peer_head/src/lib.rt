//! Request heads, cut out of a stream that arrives in any pieces (RFC 9112, sections 2.2, 3, 6 and 9.3).
//!
//! A [`HeadBuf`] holds the bytes that came and lends the room for more. `look` says what they are: too
//! few, a head, or a fault, by these bytes alone, so that no cutting of the stream changes an answer.
//! The crate stands on `httparse`, which parses a head, and on `memchr`, which finds its end.
//!
//! The contracts say exactly which bytes are a head, which fault comes first, whether the connection
//! closes and whether the reply goes without content; [`laws`] says that each text looks one way and
//! no other. Only `HeadBuf::new` takes memory.
#![tactic(auto)]

mod block;
mod buffer;
mod fault;
mod field;
mod head;
mod idle;
pub mod laws;
mod look;
mod parse;
mod places;
mod summary;

pub use buffer::{HEAD_LIMIT, HeadBuf};
pub use fault::HeadFault;
pub use head::HeadView;
pub use idle::are_pairs;
pub use look::{Look, look_held};
pub use places::FieldPlaces;

//! The client's side of HTTP/1.1 for one request and its reply, without input or output.
//!
//! It stands on the toolchain's `http1`. It promises the request to the byte, its fields (`Field`) included, and that a reply which
//! is given is one that the bytes begin with that came, as they may, by the grammar of `http1`: its status and its whole body. A body
//! that was cut is none.
#![tactic(auto)]

mod content;
mod fault;
mod field;
mod heads;
mod intake;
mod lines;
mod receiving;
mod reply;
mod request;
mod stage;

pub use fault::{FieldFault, ReplyFault};
pub use field::{Field, field_fault};
pub use lines::are_same;
pub use receiving::Receiving;
pub use reply::Reply;
pub use request::Request;

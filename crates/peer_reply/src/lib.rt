//! Replies: what a request gets, as slices that joined are the reply's text.
//!
//! It stands on the views of `peer_view` and the fills of `peer_source`. It promises that the parts of a reply joined
//! are the text that the definitions give for a fault or an answer, and takes no memory.
#![tactic(auto)]

mod fault;
mod head;
pub mod laws;
mod opening;
mod reply;
mod response;
mod wish;

pub use fault::Fault;
pub use head::HeadRoom;
pub use reply::Reply;
pub use response::{PbFault, read_response};
pub use wish::{ReplyForm, Wish, WishBody};

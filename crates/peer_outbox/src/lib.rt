//! What waits to be sent: its bytes, of which large values are lent and not copied.
//!
//! It stands on the views of `peer_view` and the parts of `peer_reply`. It promises the bytes that came and did not go, in order.
#![tactic(auto)]

mod byte_queue;
mod outbox;
mod parts;

pub use byte_queue::ByteQueue;
pub use outbox::{MAX_COPIED, Outbox};
pub use parts::part_at;

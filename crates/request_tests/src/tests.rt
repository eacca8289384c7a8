//! Heads, targets, wishes and replies.

mod head_names;
mod heads;
mod replies;
mod targets;
mod wishes;

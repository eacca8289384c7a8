//! What an access log is told of replies: the record of each, and the rings by which records come from loops to the log.
//!
//! It stands on `rtrb` and on the lines of `peer_log`. It promises that a loop puts a record behind those before it, or counts it as
//! dropped, and never waits; and that the log takes the first that is there.
#![tactic(auto)]

mod bell;
mod line;
mod record;
mod ring;
mod rings;
mod start;

pub use bell::Bell;
pub use line::{LineNames, put_record};
pub use record::{Asked, Found, ReplyRecord};
pub use ring::{RecordsIn, RecordsOut};
pub use rings::RecordRings;
pub use start::TextStart;

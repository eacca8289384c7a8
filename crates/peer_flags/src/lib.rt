//! The words that `peer_front` is called with: its flags, their defaults and their bounds.
//!
//! It stands on `clap`, and on `peer_log` for the forms of lines. It promises numbers within the bounds of their flags, which time a text means, and room for one
//! connection and one value at least, and for no more than were asked for. `flags_tests` shows the sentence for each word that
//! cannot be used.
#![tactic(auto)]

mod address;
mod fault;
mod flags;
mod log;
mod options;
mod room;
mod size;
mod time;
mod word;

pub use address::{ListenAddress, PageAddress};
pub use fault::{BadWord, WordFault};
pub use flags::{FlagKind, command, kind_of};
pub use options::Options;
pub use room::Room;
pub use time::time_of;
pub use word::{bytes_in, cache_keys_in, time_in, under_way_in};

//! A file that says what `peer_front` is to do, as words of its command line.
//!
//! It stands on the flags of `peer_flags`, `clap` and `toml`. It promises that a text is refused for its form only if it is no
//! document of TOML. `flags_tests` shows the sentence for each file that cannot be used, and its line.
#![tactic(auto)]

mod config;
mod entry;
mod fault;
mod given;
mod group;
mod group_key;
mod header;
mod place;
mod words;

pub use config::Config;
pub use entry::{Entry, Given};
pub use fault::{BadEntry, EntryFault, NoConfig};
pub use group::Group;
pub use header::{Header, HeaderFault};
pub use place::{Place, line_of};
pub use words::words_of;

//! Tests of the words that `peer_front` is called with: what each bad one prints, sizes, times, and the room that few files
//! leave; and of the files that stand for words.
//!
//! It stands on `peer_flags`, `peer_config` and `clap`, and uses their public calls alone. It has tests alone and promises nothing: what
//! they expect is written out.
#![tactic(auto)]

#[cfg(test)]
mod tests;

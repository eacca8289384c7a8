//! Tests of views, sinks, devices, fills, caches and tables, of what no clause says.
//!
//! It stands on `peer_view`, `peer_source` and `peer_table`, and uses their public calls alone. It has tests alone and
//! promises nothing: what they expect is written out, or comes from a plain model that shares no code with them.
#![tactic(auto)]

#[cfg(test)]
mod tests;

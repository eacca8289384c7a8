//! Tests of fetches as states, over bytes in memory: what each kind of reply gives, which request is sent, and which connections may
//! be used again; and of which URLs are endpoints.
//!
//! It stands on `peer_origin` and `peer_value`, and uses their public calls alone. It has tests alone and promises nothing: what they
//! expect is written out.
#![tactic(auto)]

#[cfg(test)]
mod tests;

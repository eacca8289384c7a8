//! Tests of connections as states: what an exchange sends for worked and generated texts, however their bytes come and go,
//! and how it ends.
//!
//! It stands on the exchanges of `peer_exchange`, driven by `exchange_drive`, and the texts of `stream_model`. It has tests alone
//! and promises nothing: what they expect is written down from the forms of requests and replies (RFC 9112, groupcache's
//! `http.go`), and never taken from the program. Generated texts are compared with the plain, slow model of `stream_model`.
#![tactic(auto)]

#[cfg(test)]
mod tests;

//! What tests of whole streams expect: requests and replies in plain text, texts and cuts made by chance, and a plain,
//! slow model of a connection over the source for demonstrations.
//!
//! It stands on nothing, and shares no code with the connections that are compared with it: the replies are written down
//! from their forms (RFC 9112, groupcache's `http.go`). No crate of the product uses it, and it promises nothing.
#![tactic(auto)]

mod dice;
mod model;
mod texts;

pub use dice::Dice;
pub use model::{Outcome, outcome_of};
pub use texts::{
    ASK_K, ASK_K_LAST, FOUND_K, FOUND_K_LAST, TOO_LONG, Then, Told, add_repeated, add_reply,
    add_request, joined, repeated, reply, request,
};

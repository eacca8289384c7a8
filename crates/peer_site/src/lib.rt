//! What the threads of a server share, and how they wake one another: what a loop is told (`Mailbox`), how many connections are open and
//! what they hold (`Occupancy`), and what a thread that fills does beside its jobs (`FillGate`). And when a client of a loop is given up,
//! by what it did, when, and what it does at the moment (`Activity`, `Standing`).
//!
//! It stands on the wakers and the limits of `peer_runtime` and on the counters of `peer_stats`, and fills the gate of `peer_fill`. It
//! promises that a client is overdue exactly where a limit is exceeded, and which of what was noted counts for that; that a loop notes
//! what its clients do is its own matter. That no wake-up is lost no clause says: it is argued where it is done, and tested.
#![tactic(auto)]

mod activity;
mod fill_gate;
mod mailbox;
mod mailboxes;
mod occupancy;
mod site;
mod standing;

pub use activity::Activity;
pub use fill_gate::FillGate;
pub use mailbox::{MAX_ARRIVED, Mailbox, SLOTS, SLOTS_OF_WORD, WORDS, slot_of};
pub use mailboxes::Mailboxes;
pub use occupancy::Occupancy;
pub use site::{LoopSite, Site};
pub use standing::Standing;

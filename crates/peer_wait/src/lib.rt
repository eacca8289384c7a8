//! Waiting: how threads of the pool and of connections sleep for what another thread changes.
//!
//! It stands on the event count of `crossbeam_utils` and the lock of `std`. It promises how a waiter counts its first
//! 16 pauses. That it sleeps in none of these, and that no wake-up is lost, no clause says: it is tested, and rests on
//! the order of two steps on each side:
//!
//! - who waits announces its sleep first, and looks once more before it sleeps;
//! - who changes something makes the change first, and notifies then.
//!
//! So either the last look finds the change, or the change comes behind that look, and then the sleep was announced
//! before the notice, which ends it. A notice stays in force until a thread announces a sleep. While it does, another one of
//! its kind wakes nobody, and need not: who sleeps then announced it before the first of the two, which wakes them all, or
//! one of them, who acknowledges it and wakes the next where more is left.
#![tactic(auto)]

mod mutex;
mod notice;
mod waiter;

pub use mutex::lock;
pub use notice::Notice;
pub use waiter::Waiter;

//! Lines that a running server writes for whoever watches it: when, how bad, what, and which.
//!
//! `line_of` writes an entry as text or as JSON. It stands on `itoa` and `jiff`. It promises the bytes of a line: what happened, and
//! names, keys and words are escaped in it. So an entry is one line of printable ASCII, if the names of its fields and its time are.
//! What text a time has the tests show (`log_tests`).
#![tactic(auto)]

mod entry;
mod escape;
mod line;
mod time;

pub use entry::{Entry, Field, Level, LogForm, Said};
pub use line::{line_of, put_line};
pub use time::{now_text, time_text};

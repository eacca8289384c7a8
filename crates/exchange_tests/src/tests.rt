//! Exchanges over worked and generated texts, and in another thread.

mod generated;
mod known;
mod moved;
mod worked;

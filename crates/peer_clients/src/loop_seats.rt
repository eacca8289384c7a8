//! The seats of one loop.

use peer_fill::{ConnSeat, FillSeat};
use peer_source::Source;
use std::sync::ledger::Ledger;

/// The seats of one loop.
#[derive(Drop)]
pub struct LoopSeats<S: Source, L: Ledger> {
    /// By which its connections ask.
    pub conn: ConnSeat<S, L>,
    /// By which it fills, where the loops fill.
    pub fill: Option<FillSeat<S, L>>,
}

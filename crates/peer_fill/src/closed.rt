//! What is left of a pool whose seats were all handed in.
ghost use Rattle.std.specs.Prelude.{◌≡◌};
ghost use Rattle.crossbeam_queue.specs.Passes.{IsPassOf};

use crate::jobs::Jobs;
use crate::table::{CountedTable, HasSixteenParts};
use crate::totals::Totals;
use peer_source::Source;
use std::sync::ledger::Ledger;

/// A pool that was ended: its flights and its jobs, and what its seats have together.
#[derive(Drop)]
pub struct Closed<S: Source, L: Ledger> {
    pub(crate) jobs: Jobs<S>,
    pub(crate) table: CountedTable<S, L>,
    pub(crate) sixteen: HasSixteenParts<L>,
    pub(crate) totals: Totals<S, L>,
    ghost all_parts: { (totals.conn_parts ≡ 16) × (totals.fill_parts ≡ 16) },
    ghost own: { IsPassOf jobs totals.pass },
}

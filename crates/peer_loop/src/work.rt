//! What the threads of a server are handed, and what one of them is.

use crate::filler::FetchWork;
use crate::fillers::Fillers;
use peer_clients::LoopParts;
use peer_fetch::{FetchParts, FetchPlan};
use peer_fill::{FillSeat, Seats};
use peer_site::{FillGate, Site};
use peer_source::Source;
use std::sync::ledger::Ledger;

/// What threads that fill need beside their seats.
#[derive(Drop)]
pub struct FillerParts<'a> {
    pub fillers: Fillers,
    /// For each thread that fetches.
    pub fetchers: Vec<FetchParts>,
    /// What they fetch, where they do.
    pub plan: Option<FetchPlan<'a>>,
}

/// What threads need beside their seats.
#[derive(Drop)]
pub struct ThreadParts<'a> {
    pub loops: Vec<LoopParts>,
    pub fillers: FillerParts<'a>,
}

/// What all threads of a server are handed.
#[derive(Drop)]
pub struct AllWork<'a, S: Source, L: Ledger> {
    pub site: Site<'a>,
    pub seats: Seats<S, L>,
    pub parts: ThreadParts<'a>,
}

/// What a thread that fills is handed.
#[derive(Drop)]
pub struct FillWork<'a, S: Source, L: Ledger> {
    pub seat: FillSeat<S, L>,
    pub fetcher: Option<FetchWork<'a>>,
    pub gate: FillGate<'a>,
}

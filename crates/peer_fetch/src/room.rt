//! The memory of a thread that fetches.
//!
//! It stands on vectors, and promises nothing that contracts see.

use crate::books::Books;
use crate::idle::Idle;
use crate::settings::FetchPlan;
use peer_stats::ServiceHeld;
use peer_value::{GroupShares, Shares};
use std::alloc::{AllocError, Global};

// How many bytes a read may give.
const ROOM: usize = 65_536;

/// The memory that is needed before a value is under way.
#[derive(Drop)]
pub struct Room {
    pub books: Books,
    pub idle: Idle,
    pub shares: Shares,
    pub group_shares: GroupShares,
    pub buffer: Vec<u8>,
    /// What the page was told of each endpoint.
    pub told: Vec<ServiceHeld>,
}

impl Room {
    /// Room for what this plan has fetched.
    pub fn new(alloc: Global, plan: &FetchPlan<'_>) -> Result<Room, AllocError> {
        let endpoints = plan.endpoints.each.len();
        Ok(Room {
            books: Books::new(alloc, endpoints, &plan.settings.fetch)?,
            idle: Idle::new(alloc, endpoints)?,
            shares: Shares::new(alloc, &plan.endpoints, plan.settings.under_way)?,
            group_shares: GroupShares::new(alloc, plan.endpoints.each)?,
            buffer: vec![in alloc; 0; ROOM]?,
            told: vec![in alloc; ServiceHeld::NONE; endpoints]?,
        })
    }
}

//! How a pool begins.
ghost use Rattle.std.specs.Prelude.{◌≡◌, ◌<◌, ◌≤◌, ◌↔◌, IsErrOf, OnOk};
ghost use Rattle.peer_fill.specs.Opens.{IsOutside, IsWithin};

use crate::pool::Pool;
use crate::seat::MAX_SEATS;
use crate::seats::{ConnSeat, FillSeat};
use peer_source::{MAX_GROUPS, Source};
use std::alloc::AllocError;
use std::sync::ledger::Ledger;
use thiserror::Error;

/// Why a pool was not opened: the first that applies.
#[derive(Debug, Drop, Error)]
pub enum OpenFault {
    #[error("a pool has 1 to 16 workers")]
    Workers,
    #[error("a pool has 1 to 16 connections")]
    Conns,
    #[error("the source of a pool has 1 to 64 groups")]
    Groups,
    #[error("memory was refused")]
    Memory,
}

impl From<AllocError> for OpenFault {
    ghost use Rattle.peer_fill.specs.declared.open.OpenFault.TheVariants.{Memory};

    ghost from_gives = { λ _ fault. fault ≡ Memory };

    fn from(_: AllocError) -> OpenFault {
        OpenFault::Memory
    }
}

/// Whether a pool can be opened with so many workers, connections and groups.
pub(crate) fn check_numbers(workers: usize, conns: usize, groups: usize) -> Result<(), OpenFault>
    ensures workers { IsErrOf result OpenFault.Workers ↔ IsOutside 16 workers }
    ensures conns { IsErrOf result OpenFault.Conns ↔ (IsWithin 16 workers × IsOutside 16 conns) }
    ensures groups { IsErrOf result OpenFault.Groups ↔ (IsWithin 16 workers × IsWithin 16 conns × IsOutside 64 groups) }
    ensures memory { ¬ IsErrOf result OpenFault.Memory }
    ensures within { OnOk result (IsWithin 16 workers × IsWithin 16 conns × IsWithin 64 groups) }
{
    if workers == 0 || workers > MAX_SEATS as usize {
        return Err(OpenFault::Workers);
    }
    if conns == 0 || conns > MAX_SEATS as usize {
        return Err(OpenFault::Conns);
    }
    if groups == 0 || groups > MAX_GROUPS {
        return Err(OpenFault::Groups);
    }
    Ok(())
}

/// A pool and its seats.
#[derive(Drop)]
pub struct Opened<S: Source, L: Ledger> {
    pub pool: Pool<S, L>,
    /// One for each who fills.
    pub fills: Vec<FillSeat<S, L>>,
    /// One for each who asks: a connection, or an event loop with all of its own.
    pub conns: Vec<ConnSeat<S, L>>,
}

//! How the jobs are filled that the connections of a loop push.
ghost use Rattle.std.specs.Prelude.{◌≡◌, ◌≤◌, IfSome};
ghost use Rattle.peer_fill.specs.Pools.{IsFillSeatOf};
ghost use Rattle.peer_clients.specs.Parts.{filling_parts};

use crate::limits::{JOBS_OF_TURN, LOOKS};
use peer_fill::{FillSeat, Pool};
use peer_runtime::PollWakers;
use peer_site::FillGate;
use peer_source::Source;
use std::alloc::Global;
use std::sync::Wait;
use std::sync::ledger::Ledger;

/// What a loop needs to have jobs filled.
#[derive(Clone, Copy)]
pub struct Filling<'a> {
    /// Those of the threads that fetch.
    pub wakers: &'a PollWakers,
    /// The gate of the loop, where it fills.
    pub gate: FillGate<'a>,
    /// Of how many pushed jobs those were told who fill.
    pub told: u64,
    /// Whether the loop filled as many as it may in one turn, so that there may be more.
    pub has_more: bool,
}

impl<'a> Filling<'a> {
    /// No job was pushed.
    pub fn new(wakers: &'a PollWakers, gate: FillGate<'a>) -> Filling<'a> {
        Filling {
            wakers,
            gate,
            told: 0,
            has_more: false,
        }
    }

    /// How often the loop looks whether a fill came before it sleeps.
    pub fn looks(&self) -> u32 {
        if self.wakers.each.is_empty() {
            LOOKS
        } else {
            1
        }
    }

    /// So many jobs were pushed by now: wakes those who fetch.
    pub fn tell(&mut self, pushed: u64) {
        if self.told != pushed {
            self.wakers.wake_asleep(pushed.wrapping_sub(self.told));
            self.told = pushed;
        }
    }
}

/// Fills as many jobs as a loop fills in one turn, where it has a seat for that. How many.
pub fn work<S: Source, L: Ledger, H: Wait>(
    rt: &H,
    alloc: Global,
    pool: &Pool<S, L>,
    fill: &mut Option<FillSeat<S, L>>,
    gate: &FillGate<'_>,
) -> usize
    requires { IfSome fill.old (IsFillSeatOf pool.now) }
    ensures of { IfSome fill.new (IsFillSeatOf pool.now) }
    ensures parts { filling_parts fill.new ≡ filling_parts fill.old }
{
    match fill {
        Some(seat) => pool.work_some(rt, alloc, seat, JOBS_OF_TURN, gate),
        None => 0,
    }
}

//! What becomes of a fill: it is set, those who wait for it are told, and its flight is landed.
//!
//! It stands on the flights of `peer_flight`. It promises that only a fill of the flight's own group and key is set.
ghost use Rattle.std.specs.Prelude.{◌≡◌, ◌≤◌, ◌^◌, Some, IsTrue};
ghost use Rattle.peer_flight.specs.SingleFlight.{place_of};

use crate::counts::FillCounts;
use crate::gate::Gate;
use crate::pool::Pool;
use peer_flight::{FillRight, Put};
use peer_source::{Fill, GroupId, Source};
use peer_wait::lock;
use std::sync::Wait;
use std::sync::ledger::Ledger;

impl<S: Source, L: Ledger> Pool<S, L> {
    ghost use Rattle.peer_fill.specs.Counts.{taken_of};

    // Sets the fill of the flight, which is of the flight's group and key, and tells those who wait for it.
    fn put<R: Wait, G: Gate>(&self, rt: &R, right: FillRight<S>, fill: Fill<S>, gate: &G) -> Put<S>
        requires { place_of fill.group fill.key ≡ right.place }
        ensures flight { result.flight ≡ right }
        ensures kept { IsTrue result.kept → result.note.known ≡ Some fill }
    {
        let put = right.put(fill);
        self.signals.fill(put.flight.number()).notify_all();
        gate.after_put(
            rt,
            put.flight.number(),
            put.flight.group(),
            put.flight.key().as_slice(),
        );
        put
    }

    // Takes the flight out of the table. Its right is spent, or there were no `put`.
    fn land<R: Wait>(&self, rt: &R, put: Put<S>) {
        lock(rt, &self.table).land(&put);
    }

    /// Sets the fill of a flight with this right, and lands it.
    pub(crate) fn put_and_land<R: Wait, G: Gate>(
        &self,
        rt: &R,
        right: FillRight<S>,
        fill: Fill<S>,
        gate: &G,
    )
        requires { place_of fill.group fill.key ≡ right.place }
    {
        let put = self.put(rt, right, fill, gate);
        self.land(rt, put);
    }

    /// Tells the gate what a seat has counted, the last of it of this group; and, each time that so many fills were made,
    /// one who waits for room.
    pub(crate) fn tell_counts<G: Gate>(&self, group: GroupId, fills: &FillCounts, gate: &G)
        requires { taken_of fills.now ≤ 2 ^ 56 }
    {
        gate.after_count(group, fills.calls, fills.rehits);
        if fills.tells_of_room() {
            self.signals.room.notify_one();
        }
    }
}

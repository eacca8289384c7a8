//! The flight table as the pool locks it: beside the book of what its seats led.
ghost use Rattle.std.specs.Prelude.{◌≡◌, ◌⊎◌, ◌+◌, ◌<◌, None, IfOk, IfSome, OnErr};
ghost use Rattle.peer_flight.specs.Tables.{state_of};

use peer_flight::{Ask, AskFault, Flight, Put, Table};
use peer_source::{GroupId, Source};
use peer_view::ByteView;
use std::alloc::{AllocError, Global};
use std::marker::PhantomData;
use std::sync::ledger::{Book, Ledger, Share};

/// A flight table, and the book whose total is the number of the flights that it led.
#[derive(Drop)]
pub struct CountedTable<S: Source, L: Ledger> {
    table: Table<S>,
    led: Book<L>,
    ghost counted: { (state_of table).number ≡ led.total },
}

/// That the ledger has 16 parts.
#[derive(Drop)]
pub struct HasSixteenParts<L: Ledger> {
    of: PhantomData<L>,
    ghost is: { L.parts ≡ 16 },
}

impl<S: Source, L: Ledger> CountedTable<S, L> {
    ghost use Rattle.peer_flight.specs.SingleFlight.{IsSame, Lands, Place, no_flights, place_of};
    ghost use Rattle.peer_flight.specs.Tables.{Gives, Stands, flight_at};
    ghost use Rattle.peer_fill.specs.Asks.{led_count};

    pub fn new(alloc: Global, led: Book<L>) -> CountedTable<S, L>
        requires { led.total ≡ 0 }
        ensures { IsSame no_flights (state_of result.table) }
    {
        CountedTable {
            table: Table::new(alloc),
            led,
        }
    }

    /// Joins the open flight of the group and the key, or leads one, which the share counts.
    pub fn want(
        &mut self,
        alloc: Global,
        group: GroupId,
        key: &ByteView,
        share: &mut Share<L>,
    ) -> Result<Ask<S>, AskFault>
        requires { 0 < share.old.parts }
        ensures gives { IfOk result (λ ask. Gives ask (state_of self.old.table) (state_of self.new.table) (place_of group.number key.now)) }
        ensures stands { IfOk result (λ ask. Stands ask self.old.table self.new.table (place_of group.number key.now)) }
        ensures counted { IfOk result (λ ask. share.new.amount ≡ share.old.amount + led_count ask) }
        ensures refused { OnErr result (share.new.amount ≡ share.old.amount) }
        ensures same { OnErr result (IsSame (state_of self.old.table) (state_of self.new.table)) }
        ensures kept { OnErr result ((q : Place) → flight_at self.new.table q ≡ flight_at self.old.table q) }
        ensures parts { share.new.parts ≡ share.old.parts }
    {
        let CountedTable { table, led } = self;
        match table.want(alloc, group, key) {
            Ok(Ask::Led(flight, right)) => {
                led.add(share, 1);
                Ok(Ask::Led(flight, right))
            }
            Ok(Ask::Joined(flight)) => Ok(Ask::Joined(flight)),
            Err(fault) => Err(fault),
        }
    }

    /// A share of the open flight of the group and the key, where there is one. It leads none.
    pub fn join(&self, group: GroupId, key: &ByteView) -> Result<Option<Flight<S>>, AllocError>
        ensures found { IfOk result (λ found. found ≡ flight_at self.now.table (place_of group.number key.now)) }
        ensures place { IfOk result (λ found. IfSome found (λ flight. flight.place ≡ place_of group.number key.now)) }
    {
        self.table.join(group, key)
    }

    /// Takes the flight out of the table. Its right is spent: who has a `Put` has spent it.
    pub fn land(&mut self, put: &Put<S>)
        ensures lands { Lands (state_of self.old.table) (state_of self.new.table) put.now.flight.place put.now.flight.number }
        ensures kept { (q : Place) → (flight_at self.new.table q ≡ None) ⊎ (flight_at self.new.table q ≡ flight_at self.old.table q) }
    {
        self.table.land(&put.flight);
    }

    /// How many flights were led, which is what all seats counted.
    pub(crate) fn count_led(&mut self, parts: &HasSixteenParts<L>, all: &mut Share<L>) -> u64
        requires { all.old.parts ≡ 16 }
        ensures table { result ≡ (state_of self.old.table).number }
        ensures seats { result ≡ all.old.amount }
    {
        let _ = &parts.of;
        let CountedTable { table, led } = self;
        led.audit(all);
        table.counts().0
    }
}

impl<L: Ledger> HasSixteenParts<L> {
    pub fn new() -> HasSixteenParts<L>
        requires { L.parts ≡ 16 }
    {
        HasSixteenParts { of: PhantomData }
    }
}

//! Worlds, and their eight events.
ghost use Rattle.std.specs.Prelude.{◌≡◌, ◌≢◌, true, IfOk, OnErr, IsErrOf, IsSomeAnd};
ghost use Rattle.peer_flight.specs.Events.{PutsHand, PutsReady, TakesTicket};
ghost use Rattle.flight_world.specs.Calls.{IsReached};
ghost use Rattle.peer_flight.specs.Tables.{IsWorn, state_of};
ghost use Rattle.peer_flight.specs.World.{start};

use crate::connection::{Connection, new_connections};
use crate::entry::FlightEntry;
use crate::wish::Wish;
use crate::worker::{Hands, Worker, idle_workers};
use peer_flight::{AskFault, Table};
use peer_source::{Fill, Source};
use std::alloc::{AllocError, Global};
use std::collections::VecDeque;

// The most jobs in the list.
const JOBS: usize = 256;

/// The table, every flight by its number, the job list, the workers and the connections.
#[derive(Drop)]
pub struct World<S: Source> {
    table: Table<S>,
    flights: Vec<FlightEntry<S>>,
    jobs: VecDeque<u64>,
    workers: Vec<Worker>,
    connections: Vec<Connection<S>>,
    ghost reached: { ∥ IsReached S.allowed (record {
      table = state_of table;
      flights = flights.items;
      jobs = jobs.items;
      workers = workers.items;
      connections = connections.items;
    }) ∥₁ },
}

impl<S: Source> World<S> {
    ghost use Rattle.peer_flight.specs.Events.{PutsJob, TakesJob, LandsFlight, WantsAs, GoesOn, SeesAt};
    ghost use Rattle.flight_world.specs.Calls.{WhereAllowed};
    ghost use Rattle.peer_flight.specs.SingleFlight.{IsSame, no_flights};
    ghost use Rattle.flight_world.specs.Views.{SetsFill};
    ghost use Rattle.flight_world.specs.Worlds.{world_of};

    /// An empty world with so many workers and connections.
    pub fn new(alloc: Global, workers: usize, connections: usize) -> Result<World<S>, AllocError>
        ensures table { IfOk result (λ world. IsSame no_flights (world_of world).table) }
        ensures rest { IfOk result (λ world. world_of world ≡ record (start workers connections) { table = (world_of world).table }) }
    {
        let workers = idle_workers(alloc, workers)?;
        let connections = new_connections(alloc, connections)?;
        Ok(World {
            table: Table::new(alloc),
            flights: Vec::new(alloc),
            jobs: VecDeque::new(alloc),
            workers,
            connections,
        })
    }

    /// The law of worlds: events lead to this one from an empty world, so each fact of `laws` holds of it.
    pub fn law(&self)
        ensures { ∥ IsReached S.allowed (world_of self.now) ∥₁ }
    {}

    /// Job put: the right in the hand of a connection goes to the end of the job list.
    pub fn put_job(&mut self, connection: usize) -> Result<bool, AllocError>
        ensures put { IfOk result (λ put. WhereAllowed put (PutsJob connection) (world_of self.old) (world_of self.new)) }
        ensures refused { OnErr result (world_of self.new ≡ world_of self.old) }
    {
        if self.jobs.len() >= JOBS {
            return Ok(false);
        }
        self.jobs.reserve(1)?;
        let Some(reader) = self.connections.get_mut(connection) else {
            return Ok(false);
        };
        let Some(number) = reader.take_right() else {
            return Ok(false);
        };
        self.jobs.push_back_reserved(number);
        Ok(true)
    }

    /// Job taken: the first job's right goes to a worker with empty hands.
    pub fn take_job(&mut self, worker: usize) -> bool
        ensures { WhereAllowed result (TakesJob worker) (world_of self.old) (world_of self.new) }
    {
        let Some(taker) = self.workers.get_mut(worker) else {
            return false;
        };
        let Some(number) = self.jobs.front() else {
            return false;
        };
        let number = *number;
        let Some(flight) = self.flights.get_mut(number as usize) else {
            return false;
        };
        if !taker.is_idle() {
            return false;
        }
        flight.taken += 1;
        taker.hands = Hands::Filling(number);
        let _first = self.jobs.pop_front();
        true
    }

    /// Outcome set: the worker spends its right, and the flight has this fill, if it is of the flight's place.
    pub fn set_outcome(&mut self, worker: usize, fill: Fill<S>) -> bool
        ensures { WhereAllowed result (SetsFill S.allowed fill worker) (world_of self.old) (world_of self.new) }
    {
        fill.law();
        let Some(filler) = self.workers.get_mut(worker) else {
            return false;
        };
        let Some(number) = filler.filling() else {
            return false;
        };
        let Some(flight) = self.flights.get_mut(number as usize) else {
            return false;
        };
        if !flight.is_of(&fill) {
            return false;
        }
        flight.spend(fill);
        flight.sets += 1;
        filler.hands = Hands::Landing(number);
        true
    }

    /// Landed: the worker, whose right is spent, lands the flight.
    pub fn land(&mut self, worker: usize) -> bool
        ensures { WhereAllowed result (LandsFlight worker) (world_of self.old) (world_of self.new) }
    {
        let Some(lander) = self.workers.get_mut(worker) else {
            return false;
        };
        let Some(number) = lander.landing() else {
            return false;
        };
        let Some(flight) = self.flights.get_mut(number as usize) else {
            return false;
        };
        self.table.land_at(flight.place(), number);
        flight.landed += 1;
        lander.hands = Hands::Empty;
        true
    }

    /// Want: a wish with a place arrives at an empty hand, and joins or leads a flight.
    pub fn want(&mut self, alloc: Global, connection: usize, wish: Wish) -> Result<bool, AskFault>
        ensures wanted { IfOk result (λ wanted. WhereAllowed wanted (WantsAs wish connection) (world_of self.old) (world_of self.new)) }
        ensures refused { OnErr result (world_of self.new ≡ world_of self.old) }
        ensures worn { IsErrOf result AskFault.Worn → IsSomeAnd wish.place (IsWorn (world_of self.old).table) }
        ensures room { IsSomeAnd wish.place (IsWorn (world_of self.old).table) → result ≢ Ok true }
    {
        let Some(reader) = self.connections.get_mut(connection) else {
            return Ok(false);
        };
        reader.want(alloc, &mut self.table, &mut self.flights, wish)
    }

    /// Lane put, of the ticket in the hand of a connection.
    pub fn put_ticket(&mut self, connection: usize) -> Result<bool, AllocError>
        ensures put { IfOk result (λ put. WhereAllowed put (GoesOn PutsHand connection) (world_of self.old) (world_of self.new)) }
        ensures refused { OnErr result (world_of self.new ≡ world_of self.old) }
    {
        let Some(reader) = self.connections.get_mut(connection) else {
            return Ok(false);
        };
        reader.put_ticket()
    }

    /// Lane put, of a wish that is a fault or a hit.
    pub fn put_ready(&mut self, connection: usize, wish: Wish) -> Result<bool, AllocError>
        ensures put { IfOk result (λ put. WhereAllowed put (GoesOn (PutsReady wish) connection) (world_of self.old) (world_of self.new)) }
        ensures refused { OnErr result (world_of self.new ≡ world_of self.old) }
    {
        let Some(reader) = self.connections.get_mut(connection) else {
            return Ok(false);
        };
        reader.put_ready(wish)
    }

    /// Lane taken: a ticket that names a flight waits, and a ready one is answered at once.
    pub fn take_ticket(&mut self, connection: usize) -> Result<bool, AllocError>
        ensures took { IfOk result (λ took. WhereAllowed took (GoesOn TakesTicket connection) (world_of self.old) (world_of self.new)) }
        ensures refused { OnErr result (world_of self.new ≡ world_of self.old) }
    {
        let Some(writer) = self.connections.get_mut(connection) else {
            return Ok(false);
        };
        writer.take_ticket()
    }

    /// Outcome seen: the reply to the ticket that waits is written, or the writer ends for want of memory.
    pub fn see_outcome(&mut self, connection: usize) -> Result<bool, AllocError>
        ensures seen { IfOk result (λ seen. WhereAllowed seen (SeesAt connection) (world_of self.old) (world_of self.new)) }
        ensures refused { OnErr result (world_of self.new ≡ world_of self.old) }
    {
        let Some(writer) = self.connections.get_mut(connection) else {
            return Ok(false);
        };
        writer.see_outcome(&self.flights)
    }
}

//! The table of the open flights (`Group` of `singleflight.go`).
ghost use Rattle.std.specs.Prelude.{◌≡◌, ◌≢◌, ◌⊎◌, ℕ, ◌+◌, ◌^◌, ◌≤◌, ◌<◌, Some, IfOk, IfSome, None, OnErr};
ghost use Rattle.std.specs.Prelude.{IsErr, IsErrOf};
ghost use Rattle.std.specs.Option.{ForSome};
ghost use Rattle.std.specs.HashMap.{get};
ghost use Rattle.peer_flight.specs.SingleFlight.{Place, place_eq};

use crate::flight::{FillRight, Flight};
use crate::place::Place;
use peer_source::{GroupId, Source};
use peer_view::ByteView;
use std::alloc::{AllocError, Global};
use std::collections::HashMap;

/// What a want gave.
#[derive(Drop)]
pub enum Ask<S: Source> {
    /// A new flight, with its right.
    Led(Flight<S>, FillRight<S>),
    /// The open flight of the place.
    Joined(Flight<S>),
}

/// Why a want was refused.
#[derive(Debug, Drop)]
pub enum AskFault {
    /// Too many were led: the next number would be 2^62.
    Worn,
    /// Memory was refused.
    Memory,
}

impl From<AllocError> for AskFault {
    ghost use Rattle.peer_flight.specs.declared.table.AskFault.TheVariants.{Memory};

    ghost from_gives = { λ _ fault. fault ≡ Memory };

    fn from(_: AllocError) -> AskFault {
        AskFault::Memory
    }
}

/// The open flights, one for a place at most.
#[derive(Drop)]
pub struct Table<S: Source> {
    next: u64,
    flights: HashMap<Place, Flight<S>>,
    ghost most: { next ≤ 2 ^ 62 },
    ghost each: { (p : Place) → ForSome (get place_eq flights p) (λ f. (f.place ≡ p) × (f.number < next)) },
}

// The number that no flight is given.
const MAX_FLIGHTS: u64 = 1 << 62;

impl<S: Source> Table<S> {
    ghost use Rattle.peer_flight.specs.SingleFlight.{HasOpen, IsSame, Lands, Leads, no_flights, place_of};
    ghost use Rattle.peer_flight.specs.Tables.{Gives, IsWorn, Stands, flight_at, state_of};

    /// A table without flights. The allocator is for its growths.
    pub fn new(alloc: Global) -> Table<S>
        ensures { IsSame no_flights (state_of result) }
    {
        Table {
            next: 0,
            flights: HashMap::new(alloc),
        }
    }

    /// Joins the open flight of the group and the key, or leads one.
    pub fn want(
        &mut self,
        alloc: Global,
        group: GroupId,
        key: &ByteView,
    ) -> Result<Ask<S>, AskFault>
        ensures gives { IfOk result (λ ask. Gives ask (state_of self.old) (state_of self.new) (place_of group.number key.now)) }
        ensures stands { IfOk result (λ ask. Stands ask self.old self.new (place_of group.number key.now)) }
        ensures others { (q : Place) → q ≢ place_of group.number key.now → flight_at self.new q ≡ flight_at self.old q }
        ensures refused { OnErr result (IsSame (state_of self.old) (state_of self.new)) }
        ensures kept { OnErr result ((q : Place) → flight_at self.new q ≡ flight_at self.old q) }
        ensures worn { IsErrOf result AskFault.Worn → IsWorn (state_of self.old) (place_of group.number key.now) }
        ensures room { IsWorn (state_of self.old) (place_of group.number key.now) → IsErr result }
    {
        let place = Place::of(group, key)?;
        if let Some(share) = self.share_at(&place)? {
            return Ok(Ask::Joined(share));
        }
        let (flight, right) = self.lead(alloc, place)?;
        Ok(Ask::Led(flight, right))
    }

    // Leads a flight of a place that has none.
    fn lead(&mut self, alloc: Global, place: Place) -> Result<(Flight<S>, FillRight<S>), AskFault>
        ensures leads { flight_at self.old place ≡ None
            → IfOk result (λ led. Leads (state_of self.old) (state_of self.new) place led.0.number) }
        ensures of { IfOk result (λ led. (led.0.place ≡ place) × (led.1 ≡ led.0)) }
        ensures stands { IfOk result (λ led. flight_at self.new place ≡ Some led.0) }
        ensures others { (q : Place) → q ≢ place → flight_at self.new q ≡ flight_at self.old q }
        ensures refused { OnErr result (IsSame (state_of self.old) (state_of self.new)) }
        ensures kept { OnErr result ((q : Place) → flight_at self.new q ≡ flight_at self.old q) }
        ensures worn { IsErrOf result AskFault.Worn → self.old.next ≡ 2 ^ 62 }
        ensures room { self.old.next ≡ 2 ^ 62 → IsErr result }
    {
        if self.next >= MAX_FLIGHTS {
            return Err(AskFault::Worn);
        }
        let (flight, right, share) = Table::flight_of(alloc, self.next, &place)?;
        let Ok(_none) = self.flights.insert(place, share) else {
            return Err(AskFault::Memory);
        };
        self.next += 1;
        Ok((flight, right))
    }

    /// A share of the open flight of the group and the key, where there is one. It leads none.
    pub fn join(&self, group: GroupId, key: &ByteView) -> Result<Option<Flight<S>>, AllocError>
        ensures found { IfOk result (λ found. found ≡ flight_at self.now (place_of group.number key.now)) }
        ensures place { IfOk result (λ found. IfSome found (λ flight. flight.place ≡ place_of group.number key.now)) }
    {
        let place = Place::of(group, key)?;
        self.share_at(&place)
    }

    // A share of the open flight of a place, where there is one.
    fn share_at(&self, place: &Place) -> Result<Option<Flight<S>>, AllocError>
        ensures { IfOk result (λ found. found ≡ flight_at self.now place.now) }
    {
        let Some(flight) = self.flights.get(place) else {
            return Ok(None);
        };
        let share = flight.share()?;
        Ok(Some(share))
    }

    // A new flight of the place, with its right and a share for the table.
    fn flight_of(
        alloc: Global,
        number: u64,
        place: &Place,
    ) -> Result<(Flight<S>, FillRight<S>, Flight<S>), AllocError>
        ensures number { IfOk result (λ led. led.0.number ≡ number) }
        ensures place { IfOk result (λ led. led.0.place ≡ place.now) }
        ensures right { IfOk result (λ led. led.1 ≡ led.0) }
        ensures share { IfOk result (λ led. led.2 ≡ led.0) }
    {
        let (flight, right) = Flight::lead(alloc, number, place.share()?)?;
        let share = flight.share()?;
        Ok((flight, right, share))
    }

    /// Takes the flight out, where it is the open one of its place.
    pub fn land(&mut self, flight: &Flight<S>)
        ensures lands { Lands (state_of self.old) (state_of self.new) flight.now.place flight.now.number }
        ensures kept { (q : Place) → (flight_at self.new q ≡ None) ⊎ (flight_at self.new q ≡ flight_at self.old q) }
    {
        self.land_at(flight.place(), flight.number());
    }

    /// Takes the open flight of the place out, where it has this number.
    pub fn land_at(&mut self, place: &Place, number: u64)
        ensures lands { Lands (state_of self.old) (state_of self.new) place.now number }
        ensures kept { (q : Place) → (flight_at self.new q ≡ None) ⊎ (flight_at self.new q ≡ flight_at self.old q) }
    {
        let Some(found) = self.flights.get(place) else {
            return;
        };
        if found.number() == number {
            let _landed = self.flights.remove(place);
        }
    }

    /// The flights led so far, and the flights open.
    pub fn counts(&self) -> (u64, usize)
        ensures led { result.0 ≡ (state_of self.now).number }
        ensures open_flights { HasOpen (state_of self.now) result.1 }
    {
        (self.next, self.flights.len())
    }
}

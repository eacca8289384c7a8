//! Flights: what the shares of one flight see, and the right to set its fill.
ghost use Rattle.std.specs.Prelude.{◌≡◌, ℕ, None, Some, IfOk, IsTrue, MatchOption, IsSome, IsSomeAnd};
ghost use Rattle.std.specs.Arc.{arc_value};
ghost use Rattle.once_cell.specs.Once.{cell_name, Agrees};
ghost use Rattle.peer_flight.specs.Flights.{Agree};

use crate::place::Place;
use once_cell::race;
use once_cell::race::OnceBox;
use peer_source::{Fill, GroupId, Source};
use peer_view::ByteView;
use std::alloc::{AllocError, Global};
use std::marker::{Model, PhantomData};
use std::sync::Arc;

// What the shares of a flight have in common.
#[derive(Drop)]
struct Shared<S: Source> {
    number: u64,
    place: Place,
    cell: OnceBox<Fill<S>>,
}

/// A fill on its way, which all that wait for it share.
#[derive(Drop)]
pub struct Flight<S: Source> {
    shared: Arc<Shared<S>>,
}

impl<S: Source> Model for Flight<S> {
    ghost use Rattle.std.specs.Arc.{arc_value};
    ghost use Rattle.once_cell.specs.Once.{cell_name};
    ghost use Rattle.peer_flight.specs.Flights.{FlightId};

    ghost Value = { FlightId };

    ghost view = { λ f. record {
      number = (arc_value f.shared).number;
      place = (arc_value f.shared).place;
      cell = cell_name (arc_value f.shared).cell;
    } };
}

/// What a holder has learned of one flight. It takes no bytes.
pub type Note<S> = race::Note<Fill<S>>;

/// The right to set the fill of a flight, once. Its box was made when the flight was led, so that setting takes no
/// memory.
#[derive(Drop)]
pub struct FillRight<S: Source> {
    flight: Flight<S>,
    room: Box<Fill<S>>,
}

impl<S: Source> Model for FillRight<S> {
    ghost use Rattle.peer_flight.specs.Flights.{FlightId};

    ghost Value = { FlightId };

    ghost view = { λ r. r.flight };
}

/// What a right left that was spent: its flight, a note of it, and whether this call set the flight's cell. Only
/// `FillRight::put` makes one, so who has it knows that the flight has its fill.
#[derive(Drop)]
pub struct Put<S: Source> {
    pub flight: Flight<S>,
    pub note: Note<S>,
    pub kept: bool,
    spent: PhantomData<FillRight<S>>,
}

impl<S: Source> Flight<S> {
    /// Flights of one table are numbered from 0.
    pub fn number(&self) -> u64
        ensures { result ≡ self.now.number }
    {
        self.shared.number
    }

    /// The group that was wanted.
    pub fn group(&self) -> GroupId
        ensures { result.number ≡ self.now.place.group }
    {
        self.shared.place.group()
    }

    /// The key that was wanted.
    pub fn key(&self) -> &ByteView
        ensures { result.now ≡ self.now.place.key }
    {
        self.shared.place.key()
    }

    /// The group and the key.
    pub fn place(&self) -> &Place
        ensures { result.now ≡ self.now.place }
    {
        &self.shared.place
    }

    /// A note that knows nothing yet.
    pub fn note(&self) -> Note<S>
        ensures cell { result.cell ≡ self.now.cell }
        ensures known { result.known ≡ None }
    {
        self.shared.cell.note()
    }

    /// The fill, where it is set. A note that has seen one sees the same one again.
    pub fn look<'a>(&'a self, note: &mut Note<S>) -> Option<&'a Fill<S>>
        requires { note.old.cell ≡ self.now.cell }
        ensures cell { note.new.cell ≡ note.old.cell }
        ensures value { MatchOption result ((note.old.known ≡ None) × (note.new.known ≡ None))
            (λ fill. (note.new.known ≡ Some fill.now) × Agrees note.old.known fill.now) }
    {
        self.shared.cell.get_as(note)
    }

    /// What two notes of this flight know is the same fill.
    pub fn compare(&self, one: &mut Note<S>, other: &mut Note<S>)
        requires { (one.old.cell ≡ self.now.cell) × (other.old.cell ≡ self.now.cell) }
        ensures agree { Agree one.old.known other.old.known }
        ensures same { (one.new ≡ one.old) × (other.new ≡ other.old) }
    {
        one.compare(other.again());
    }

    // Sets the cell where it is empty, and tells whether it did.
    fn set(&self, fill: Box<Fill<S>>, note: &mut Note<S>) -> bool
        requires { note.old.cell ≡ self.now.cell }
        ensures cell { note.new.cell ≡ note.old.cell }
        ensures kept { IsTrue result → note.new.known ≡ Some fill.value }
        ensures known { IsSomeAnd note.new.known (λ x. Agrees note.old.known x) }
    {
        self.shared.cell.set_as(fill, note).is_ok()
    }

    // A flight with an empty cell.
    fn new(alloc: Global, number: u64, place: Place) -> Result<Flight<S>, AllocError>
        ensures number { IfOk result (λ f. f.number ≡ number) }
        ensures place { IfOk result (λ f. f.place ≡ place) }
    {
        let shared = Shared {
            number,
            place,
            cell: OnceBox::new(alloc),
        };
        Ok(Flight {
            shared: Arc::new(alloc, shared)?,
        })
    }

    /// A second share of the flight.
    pub fn share(&self) -> Result<Flight<S>, AllocError>
        ensures { IfOk result (λ f. f ≡ self.now) }
    {
        Ok(Flight {
            shared: Arc::try_clone(&self.shared)?,
        })
    }

    /// A new flight with its right.
    pub(crate) fn lead(
        alloc: Global,
        number: u64,
        place: Place,
    ) -> Result<(Flight<S>, FillRight<S>), AllocError>
        ensures number { IfOk result (λ led. led.0.number ≡ number) }
        ensures place { IfOk result (λ led. led.0.place ≡ place) }
        ensures right { IfOk result (λ led. led.1 ≡ led.0) }
    {
        let room = Box::new(alloc, Fill::unanswered(place.group(), place.key().share()?))?;
        let flight = Flight::new(alloc, number, place)?;
        let share = flight.share()?;
        Ok((
            flight,
            FillRight {
                flight: share,
                room,
            },
        ))
    }
}

impl<S: Source> FillRight<S> {
    /// The flight that it was led with.
    pub fn flight(&self) -> &Flight<S>
        ensures { result.now ≡ self.now }
    {
        &self.flight
    }

    /// Sets the flight's cell.
    pub fn put(self, fill: Fill<S>) -> Put<S>
        ensures flight { result.flight ≡ self }
        ensures cell { result.note.cell ≡ self.cell }
        ensures kept { IsTrue result.kept → result.note.known ≡ Some fill }
        ensures known { IsSome result.note.known }
    {
        let FillRight { flight, mut room } = self;
        *room = fill;
        let mut note = flight.note();
        let kept = flight.set(room, &mut note);
        Put {
            flight,
            note,
            kept,
            spent: PhantomData,
        }
    }
}

//! The laws of flights: single flight over every interleaving of a pool's events, and one answer for all that wait.
//!
//! The world, its eight events and each fact are defined in `specs/`. The contracts are the laws; the only code compares
//! what two holders have learned.
ghost use Rattle.std.specs.Prelude.{◌≡◌, option_map};
ghost use Rattle.peer_flight.specs.Claims.{claim_cell, known_of};
ghost use Rattle.peer_flight.specs.Flights.{Agree};
ghost use Rattle.peer_flight.specs.Laws.{Always, IsLawful};

use crate::claim::Claim;
use crate::flight::Note;
use peer_source::Source;

/// Holds for every source, any number of workers and connections, and every list of events that
/// the worlds along it allow. Each front of such a list is one too, so each of the ten facts holds throughout.
pub fn every_interleaving<S: Source>()
    ensures { Always S.allowed (IsLawful S.allowed) }
{}

/// All that wait for a flight get one answer: what the notes of two claims of one flight know is the same fill.
pub fn one_answer<S: Source>(
    one: &Claim<S>,
    other: &Claim<S>,
    first: &mut Option<Note<S>>,
    second: &mut Option<Note<S>>,
)
    requires flight { claim_cell one.now ≡ claim_cell other.now }
    requires first { option_map (λ note. note.cell) first.old ≡ claim_cell one.now }
    requires second { option_map (λ note. note.cell) second.old ≡ claim_cell other.now }
    ensures agree { Agree (known_of first.old) (known_of second.old) }
    ensures same { (first.new ≡ first.old) × (second.new ≡ second.old) }
{
    if let (Claim::Pending(flight), Some(first), Some(second)) = (one, first, second) {
        flight.compare(first, second);
    }
    let _ = other;
}

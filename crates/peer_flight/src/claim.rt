//! Claims: what an ask gave.
ghost use Rattle.std.specs.Prelude.{◌≡◌, ℕ, None, IfSome, option_map};
ghost use Rattle.std.specs.Option.{option_copied};

use crate::flight::{Flight, Note};
use peer_source::{Fill, GroupId, Source};
use peer_view::ByteView;

/// A fill, or the flight that will have it.
#[derive(Drop)]
pub enum Claim<S: Source> {
    /// The fill was there.
    Ready(Fill<S>),
    /// The fill comes with the flight.
    Pending(Flight<S>),
}

impl<S: Source> Claim<S> {
    ghost use Rattle.peer_flight.specs.Claims.{claim_cell, claim_place, known_of, Looked};

    /// The group that was asked for.
    pub fn group(&self) -> GroupId
        ensures { result.number ≡ (claim_place self.now).group }
    {
        match self {
            Claim::Ready(fill) => fill.group(),
            Claim::Pending(flight) => flight.group(),
        }
    }

    /// The key that was asked for.
    pub fn key(&self) -> &ByteView
        ensures { result.now ≡ (claim_place self.now).key }
    {
        match self {
            Claim::Ready(fill) => fill.key(),
            Claim::Pending(flight) => flight.key(),
        }
    }

    /// A note that knows nothing yet. A ready claim has none, since it belongs to no flight.
    pub fn note(&self) -> Option<Note<S>>
        ensures cell { option_map (λ note. note.cell) result ≡ claim_cell self.now }
        ensures known { IfSome result (λ note. note.known ≡ None) }
    {
        match self {
            Claim::Ready(_) => None,
            Claim::Pending(flight) => Some(flight.note()),
        }
    }

    /// The fill, where it is there. What a note has seen it sees again.
    pub fn look<'a>(&'a self, note: &mut Option<Note<S>>) -> Option<&'a Fill<S>>
        requires { option_map (λ note. note.cell) note.old ≡ claim_cell self.now }
        ensures cell { option_map (λ note. note.cell) note.new ≡ claim_cell self.now }
        ensures value { Looked self.now (known_of note.old) (known_of note.new) (option_copied result) }
    {
        match self {
            Claim::Ready(fill) => Some(fill),
            Claim::Pending(flight) => match note {
                Some(note) => flight.look(note),
                None => unreachable!(),
            },
        }
    }
}

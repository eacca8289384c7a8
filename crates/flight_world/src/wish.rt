//! Wishes: what a request asks for.
ghost use Rattle.std.specs.Prelude.{◌≡◌, None, Some, IfOk};

use peer_flight::Place;
use peer_source::GroupId;
use peer_view::ByteView;
use std::alloc::AllocError;
use std::marker::Model;

/// A request's wish: its place, or none for a fault, and whether its connection closes after it.
#[derive(Drop)]
pub struct Wish {
    pub(crate) place: Option<Place>,
    closing: bool,
}

impl Model for Wish {
    ghost use Rattle.peer_flight.specs.World.{Wish};

    ghost Value = { Wish };

    ghost view = { λ w. record { place = w.place; closing = w.closing } };
}

impl Wish {
    ghost use Rattle.peer_flight.specs.SingleFlight.{place_of};

    /// A wish for a group and a key.
    pub fn of(group: GroupId, key: &ByteView, closing: bool) -> Result<Wish, AllocError>
        ensures place { IfOk result (λ wish. wish.place ≡ Some (place_of group.number key.now)) }
        ensures closing { IfOk result (λ wish. wish.closing ≡ closing) }
    {
        Ok(Wish {
            place: Some(Place::of(group, key)?),
            closing,
        })
    }

    /// A wish that is a fault.
    pub fn fault(closing: bool) -> Wish
        ensures place { result.place ≡ None }
        ensures closing { result.closing ≡ closing }
    {
        Wish {
            place: None,
            closing,
        }
    }

    pub(crate) fn is_closing(&self) -> bool
        ensures { result ≡ self.now.closing }
    {
        self.closing
    }

    /// The same wish, which shares the key.
    pub(crate) fn share(&self) -> Result<Wish, AllocError>
        ensures { IfOk result (λ wish. wish ≡ self.now) }
    {
        let place = match &self.place {
            Some(place) => Some(place.share()?),
            None => None,
        };
        Ok(Wish {
            place,
            closing: self.closing,
        })
    }
}

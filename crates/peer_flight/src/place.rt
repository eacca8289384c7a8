//! Places: a group and a key.
ghost use Rattle.std.specs.Prelude.{◌≡◌, IfOk};

use peer_source::GroupId;
use peer_view::ByteView;
use std::alloc::AllocError;
use std::marker::Model;

/// What a flight is for.
#[derive(PartialEq, Eq, Hash, Drop)]
pub struct Place {
    group: GroupId,
    key: ByteView,
}

impl Model for Place {
    ghost use Rattle.peer_flight.specs.SingleFlight.{Place};

    ghost Value = { Place };

    ghost view = { λ p. record { group = p.group.number; key = p.key } };

    ghost inverse = { λ d. record { group = record { number = d.group }; key = d.key } };
}

impl Place {
    ghost use Rattle.peer_flight.specs.SingleFlight.{place_of};

    /// The place of a group and a key, which it shares.
    pub fn of(group: GroupId, key: &ByteView) -> Result<Place, AllocError>
        ensures { IfOk result (λ p. p ≡ place_of group.number key.now) }
    {
        Ok(Place {
            group,
            key: key.share()?,
        })
    }

    pub fn group(&self) -> GroupId
        ensures { result.number ≡ self.now.group }
    {
        self.group
    }

    pub fn key(&self) -> &ByteView
        ensures { result.now ≡ self.now.key }
    {
        &self.key
    }

    /// The same place, which shares the key.
    pub fn share(&self) -> Result<Place, AllocError>
        ensures { IfOk result (λ p. p ≡ self.now) }
    {
        Place::of(self.group, &self.key)
    }
}

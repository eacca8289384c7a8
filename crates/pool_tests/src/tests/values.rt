//! Groups of the source for demonstrations, and the values of fills.

use peer_flight::Claim;
use peer_source::{Fill, GroupId, Outcome, Source};

pub const ECHO: GroupId = GroupId { number: 0 };

pub const SQUARE: GroupId = GroupId { number: 1 };

/// The value that was found, and no byte where there is none.
pub fn value_of<S: Source>(fill: &Fill<S>) -> &[u8] {
    match fill.outcome() {
        Outcome::Found(value) => value.as_slice(),
        Outcome::Failed(_) | Outcome::NoMemory => &[],
    }
}

/// Whether the fill is there and has this value.
pub fn shows<S: Source>(fill: Option<&Fill<S>>, value: &[u8]) -> bool {
    match fill {
        Some(fill) => value_of(fill) == value,
        None => false,
    }
}

/// Whether the claim shows this value now.
pub fn is_shown<S: Source>(claim: &Claim<S>, value: &[u8]) -> bool {
    let mut note = claim.note();
    shows(claim.look(&mut note), value)
}

/// The same of a claim that may not be there.
pub fn is_shown_by<S: Source>(claim: &Option<Claim<S>>, value: &[u8]) -> bool {
    match claim {
        Some(claim) => is_shown(claim, value),
        None => false,
    }
}

//! What a seat counted of each group, and which groups it asked for since that was told.

use peer_source::{GroupId, MAX_GROUPS};

/// The asks for one group, by what they found.
#[derive(Clone, Copy, Debug, PartialEq, Eq)]
pub struct GroupAsks {
    pub hits: u64,
    pub led: u64,
    pub joined: u64,
}

/// A group, and the asks for it.
#[derive(Clone, Copy, Debug, PartialEq, Eq)]
pub struct AsksOfGroup {
    pub group: GroupId,
    pub asks: GroupAsks,
}

const NO_ASKS: GroupAsks = GroupAsks {
    hits: 0,
    led: 0,
    joined: 0,
};

/// The asks for each group. Those past 2^64 wrap.
#[derive(Drop)]
pub(crate) struct AsksByGroup {
    each: [GroupAsks; MAX_GROUPS],
    // A bit for each group that was asked for since its asks were told.
    untold: u64,
}

impl AsksByGroup {
    /// Nothing was asked.
    pub(crate) fn none() -> AsksByGroup {
        AsksByGroup {
            each: [NO_ASKS; MAX_GROUPS],
            untold: 0,
        }
    }

    // The asks for a group, which are to be told.
    fn asks(&mut self, group: GroupId) -> &mut GroupAsks {
        let number = group.number % MAX_GROUPS;
        self.untold |= 1u64.wrapping_shl(number as u32);
        &mut self.each[number]
    }

    /// A cache had the value.
    pub(crate) fn note_hit(&mut self, group: GroupId) {
        let asks = self.asks(group);
        asks.hits = asks.hits.wrapping_add(1);
    }

    /// A flight was led.
    pub(crate) fn note_led(&mut self, group: GroupId) {
        let asks = self.asks(group);
        asks.led = asks.led.wrapping_add(1);
    }

    /// A flight was joined.
    pub(crate) fn note_joined(&mut self, group: GroupId) {
        let asks = self.asks(group);
        asks.joined = asks.joined.wrapping_add(1);
    }

    /// The next group whose asks are to be told.
    pub(crate) fn next_untold(&mut self) -> Option<AsksOfGroup> {
        if self.untold == 0 {
            return None;
        }
        let number = self.untold.trailing_zeros() as usize % MAX_GROUPS;
        self.untold &= !1u64.wrapping_shl(number as u32);
        Some(AsksOfGroup {
            group: GroupId { number },
            asks: self.each[number],
        })
    }
}

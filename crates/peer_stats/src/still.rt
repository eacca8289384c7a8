//! Whether a loop stands still, by looks at the number of its turn once a second.
//!
//! Looks are counted, and no time: a process that was stopped and goes on has not stood still by itself.
ghost use Rattle.std.specs.Prelude.{◌≡◌, ◌↔◌, ◌≤◌, IsTrue};
ghost use Rattle.peer_stats.specs.Looks.{looked};

/// The number of a loop's turn while it waits for clients, and before its first one.
pub const ASLEEP: u64 = 0;

// After how many looks that find it in the same turn a loop stands still.
const MOST_LOOKS: u32 = 5;

/// What looks at a loop have found.
#[derive(Clone, Copy, Debug, PartialEq, Eq)]
pub struct Looks {
    /// The number of the turn that the last look found.
    pub turn: u64,
    /// How many looks have found it again.
    pub again: u32,
}

impl Looks {
    /// There was none.
    pub const NONE: Looks = Looks {
        turn: ASLEEP,
        again: 0,
    };

    /// One more, which found this turn.
    pub fn and(self, turn: u64) -> Looks
        ensures { result ≡ looked self turn }
    {
        let again = if turn == self.turn && turn != ASLEEP {
            self.again.saturating_add(1)
        } else {
            0
        };
        Looks { turn, again }
    }

    /// Whether the loop stands still.
    pub fn stands_still(&self) -> bool
        ensures { IsTrue result ↔ (5 ≤ self.now.again) }
    {
        self.again >= MOST_LOOKS
    }
}

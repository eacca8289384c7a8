//! How often something took how long: times are counted by bounds that rise.
ghost use Rattle.std.specs.Prelude.{◌≡◌, ◌↔◌, ◌≤◌, IsTrue};
ghost use Rattle.peer_stats.specs.Times.{IsPlaceOf, count_in_first};

/// How many places there are for times of one kind: one more than the most bounds.
pub const MAX_PLACES: usize = 16;

/// The bound of a place at which times are counted.
#[derive(Clone, Copy, Debug, PartialEq, Eq)]
pub struct Bound {
    /// How many places there are up to its own.
    pub(crate) places: usize,
    /// The longest time that is counted at its place, in microseconds.
    pub(crate) micros: u64,
    /// The same in seconds, as the page has it.
    pub(crate) text: &'static [u8],
}

/// The bounds of how long a value takes.
pub(crate) const VALUE_BOUNDS: [Bound; 15] = [
    Bound {
        places: 1,
        micros: 1_000,
        text: b"0.001",
    },
    Bound {
        places: 2,
        micros: 2_500,
        text: b"0.0025",
    },
    Bound {
        places: 3,
        micros: 5_000,
        text: b"0.005",
    },
    Bound {
        places: 4,
        micros: 10_000,
        text: b"0.01",
    },
    Bound {
        places: 5,
        micros: 25_000,
        text: b"0.025",
    },
    Bound {
        places: 6,
        micros: 50_000,
        text: b"0.05",
    },
    Bound {
        places: 7,
        micros: 100_000,
        text: b"0.1",
    },
    Bound {
        places: 8,
        micros: 250_000,
        text: b"0.25",
    },
    Bound {
        places: 9,
        micros: 500_000,
        text: b"0.5",
    },
    Bound {
        places: 10,
        micros: 1_000_000,
        text: b"1",
    },
    Bound {
        places: 11,
        micros: 2_500_000,
        text: b"2.5",
    },
    Bound {
        places: 12,
        micros: 5_000_000,
        text: b"5",
    },
    Bound {
        places: 13,
        micros: 10_000_000,
        text: b"10",
    },
    Bound {
        places: 14,
        micros: 30_000_000,
        text: b"30",
    },
    Bound {
        places: 15,
        micros: 60_000_000,
        text: b"60",
    },
];

/// The bounds of how long a key waits until its value is under way.
pub(crate) const QUEUE_BOUNDS: [Bound; 10] = [
    Bound {
        places: 1,
        micros: 100,
        text: b"0.0001",
    },
    Bound {
        places: 2,
        micros: 1_000,
        text: b"0.001",
    },
    Bound {
        places: 3,
        micros: 10_000,
        text: b"0.01",
    },
    Bound {
        places: 4,
        micros: 100_000,
        text: b"0.1",
    },
    Bound {
        places: 5,
        micros: 500_000,
        text: b"0.5",
    },
    Bound {
        places: 6,
        micros: 1_000_000,
        text: b"1",
    },
    Bound {
        places: 7,
        micros: 2_500_000,
        text: b"2.5",
    },
    Bound {
        places: 8,
        micros: 5_000_000,
        text: b"5",
    },
    Bound {
        places: 9,
        micros: 10_000_000,
        text: b"10",
    },
    Bound {
        places: 10,
        micros: 30_000_000,
        text: b"30",
    },
];

/// The bounds of how long a loop's turn takes.
pub(crate) const TURN_BOUNDS: [Bound; 9] = [
    Bound {
        places: 1,
        micros: 100,
        text: b"0.0001",
    },
    Bound {
        places: 2,
        micros: 500,
        text: b"0.0005",
    },
    Bound {
        places: 3,
        micros: 1_000,
        text: b"0.001",
    },
    Bound {
        places: 4,
        micros: 5_000,
        text: b"0.005",
    },
    Bound {
        places: 5,
        micros: 10_000,
        text: b"0.01",
    },
    Bound {
        places: 6,
        micros: 50_000,
        text: b"0.05",
    },
    Bound {
        places: 7,
        micros: 100_000,
        text: b"0.1",
    },
    Bound {
        places: 8,
        micros: 500_000,
        text: b"0.5",
    },
    Bound {
        places: 9,
        micros: 1_000_000,
        text: b"1",
    },
];

impl Bound {
    // Whether so many microseconds are within it.
    fn takes(&self, micros: u64) -> bool
        ensures { IsTrue result ↔ (micros ≤ self.now.micros) }
    {
        micros <= self.micros
    }
}

/// The place at which so many microseconds are counted: that of the first bound that is not lower, or the one behind all bounds.
pub(crate) fn place_of(bounds: &[Bound], micros: u64) -> usize
    ensures { IsPlaceOf bounds.now micros result }
{
    for index in 0..bounds.len() {
        if bounds[index].takes(micros) {
            return index;
        }
    }
    bounds.len()
}

/// How often something took how long.
#[derive(Clone, Copy, Debug, PartialEq, Eq)]
pub struct TimeCounts {
    /// The bounds of the places, which rise. The place behind them has none.
    pub bounds: &'static [Bound],
    /// How often it took so long, by places: above the bound of the place before, and not above that of its own.
    pub places: [u64; MAX_PLACES],
    /// All times together, in microseconds.
    pub micros: u64,
}

impl TimeCounts {
    /// Nothing was counted.
    pub const NONE: TimeCounts = TimeCounts {
        bounds: &[],
        places: [0; MAX_PLACES],
        micros: 0,
    };
}

/// How many were counted at the first `n` places, 2^64 - 1 at most.
pub(crate) fn count_in_first(places: &[u64], n: usize) -> u64
    ensures { result ≡ count_in_first places.now n }
{
    let mut count = 0u64;
    for place in &places[..n.min(places.len())] {
        count = count.saturating_add(*place);
    }
    count
}

/// How long the turns of the loop with this number took.
#[derive(Clone, Copy, Debug, PartialEq, Eq)]
pub struct LoopTurns {
    pub number: u64,
    pub turns: TimeCounts,
}

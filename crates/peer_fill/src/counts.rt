//! What the seats of a pool count.
ghost use Rattle.std.specs.Prelude.{◌≡◌, ◌↔◌, ◌+◌, ◌%◌, ◌<◌, ◌≤◌, ◌^◌, IsTrue};
ghost use Rattle.peer_fill.specs.Counts.{no_asks, no_fills, taken_of, with_found, AddsAsks};

// One who waits for room in the queue is told each time that a worker has taken so many jobs, and wakes the next one. A notice for
// each job would wake a reader for the place of one job. If the queue is empty, all are told.
const JOBS_PER_NOTICE: u64 = 32;

/// What connections counted.
#[derive(Clone, Copy, Debug)]
pub struct AskCounts {
    /// The claims that were given: `hits`, `led` and `joined` together.
    pub asked: u64,
    /// The claims that were ready.
    pub hits: u64,
    /// The flights that were led.
    pub led: u64,
    /// The flights that were joined.
    pub joined: u64,
    /// The fills that came for another group or key than was asked for.
    pub strangers: u64,
}

/// What those who fill have counted.
#[derive(Clone, Copy, Debug)]
pub struct FillCounts {
    /// The jobs that were filled: the source was called, or they were taken out of the pool for that.
    pub calls: u64,
    /// The jobs whose fill was there already.
    pub rehits: u64,
}

/// What an ask found that led no flight.
#[derive(Clone, Copy, Debug)]
pub enum Found {
    /// A value that was kept.
    Value,
    /// A flight that was open, which was joined.
    Flight,
}

impl AskCounts {
    /// Nothing was asked.
    pub(crate) fn none() -> AskCounts
        ensures { result ≡ no_asks }
    {
        AskCounts {
            asked: 0,
            hits: 0,
            led: 0,
            joined: 0,
            strangers: 0,
        }
    }

    /// Counts an ask that found this.
    pub(crate) fn count(&mut self, found: Found)
        requires asked { self.old.asked < 2 ^ 56 }
        requires within { self.old.hits + self.old.joined ≤ self.old.asked }
        ensures { self.new ≡ with_found found self.old }
    {
        self.asked += 1;
        match found {
            Found::Value => self.hits += 1,
            Found::Flight => self.joined += 1,
        }
    }

    /// Both together.
    pub(crate) fn plus(self, other: AskCounts) -> AskCounts
        requires asked { self.asked + other.asked < 2 ^ 64 }
        requires hits { self.hits + other.hits < 2 ^ 64 }
        requires led { self.led + other.led < 2 ^ 64 }
        requires joined { self.joined + other.joined < 2 ^ 64 }
        requires strangers { self.strangers + other.strangers < 2 ^ 64 }
        ensures { AddsAsks self other result }
    {
        AskCounts {
            asked: self.asked + other.asked,
            hits: self.hits + other.hits,
            led: self.led + other.led,
            joined: self.joined + other.joined,
            strangers: self.strangers + other.strangers,
        }
    }
}

impl FillCounts {
    /// No job was taken.
    pub(crate) fn none() -> FillCounts
        ensures { result ≡ no_fills }
    {
        FillCounts {
            calls: 0,
            rehits: 0,
        }
    }

    /// How many jobs were taken.
    pub(crate) fn taken(&self) -> u64
        requires { taken_of self.now < 2 ^ 64 }
        ensures { result ≡ taken_of self.now }
    {
        self.calls + self.rehits
    }

    /// Whether one who waits for room in the queue is told now.
    pub(crate) fn tells_of_room(&self) -> bool
        requires { taken_of self.now < 2 ^ 64 }
        ensures { IsTrue result ↔ (taken_of self.now % 32 ≡ 0) }
    {
        self.taken() % JOBS_PER_NOTICE == 0
    }
}

//! How much a loop does for one client before the others have their turn, and how much it has room for: each number with its
//! reason.

/// How often a client is read, answered and written to in one turn: then the others have theirs.
pub const ROUNDS_OF_TURN: u32 = 4;

/// How often the heads that are held are judged in one round: each time as many as a connection has tickets.
pub const ASKS_OF_ROUND: u32 = 16;

/// How many events one wait reports.
pub const MAX_EVENTS: usize = 256;

/// How often a loop looks whether it was told of a fill before it sleeps, some 3 microseconds: that of a worker often comes within
/// them. One that is fetched does not, and the loop looks once.
pub const LOOKS: u32 = 64;

/// For how many ticks a loop has not looked at its clients that stood still: a busy one looks at them later than it is to, too.
pub const STILL_TICKS: u32 = 4;

/// How many bytes a client may hold that are not counted among what all of them hold: those of its replies and of the values
/// of its tickets.
pub const MAX_UNCOUNTED: usize = 65_536;

/// How many jobs a loop fills before its clients have their turn again.
pub const JOBS_OF_TURN: usize = 64;

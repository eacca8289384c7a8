//! How a client of a loop is left by its turn.

/// What a client waits for behind its turn.
#[derive(Clone, Copy, PartialEq, Eq, Debug)]
pub enum ClientState {
    /// It waits for an event of its stream.
    Idle,
    /// It waits for the fill of the flight with this number.
    Awaits(u64),
    /// It waits for room in the queue of jobs, and for the fill of the flight with this number, if for one.
    NoRoom(Option<u64>),
    /// It has had its turn, and has work left.
    Busy,
    /// It is to be let go.
    Gone,
}

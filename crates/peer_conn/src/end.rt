//! How a connection ends.
//!
//! It stands on the faults of asks of `peer_flight`. It promises one end for what stopped the reader and how the writer stands.
ghost use Rattle.std.specs.Prelude.{◌≡◌};
ghost use Rattle.peer_conn.specs.Connects.{end_for};
ghost use Rattle.peer_conn.specs.Refusals.{IsRefused};

use peer_flight::AskFault;
use peer_wish::End;

/// The reader and the writer of a connection that ended.
#[derive(Drop)]
pub struct Served<R, W> {
    pub reader: R,
    pub writer: W,
    pub end: End,
}

/// What stopped the reader.
#[derive(Drop, Debug)]
pub(crate) enum ReaderStop {
    /// A reply closes.
    Closed,
    /// The end was told between two heads.
    Ended,
    /// The end was told inside a head.
    Cut,
    ReadFault,
    /// All reads were made.
    Spent,
    /// An ask was refused, or memory for a key.
    Refused(AskFault),
    /// The writer needs no more.
    Stopped,
}

/// Whether the writer writes on. One that does not still takes tickets, so that no `put` waits for ever.
#[derive(Clone, Copy, Debug)]
pub(crate) enum WriterState {
    Active,
    Memory,
    WriteFault,
}

/// The end, by how the writer stands and what stopped the reader.
pub(crate) fn end_of(state: WriterState, stop: ReaderStop) -> End
    ensures { result ≡ end_for state stop }
{
    match (state, stop) {
        (WriterState::WriteFault, _) => End::WriteFault,
        (WriterState::Memory, _)
        | (WriterState::Active, ReaderStop::Refused(AskFault::Memory) | ReaderStop::Stopped) =>
            End::Memory,
        (WriterState::Active, ReaderStop::Refused(AskFault::Worn)) => End::Worn,
        (WriterState::Active, ReaderStop::Closed | ReaderStop::Ended) => End::Clean,
        (WriterState::Active, ReaderStop::Cut) => End::Cut,
        (WriterState::Active, ReaderStop::ReadFault) => End::ReadFault,
        (WriterState::Active, ReaderStop::Spent) => End::Spent,
    }
}

/// What is served where memory is refused before the first read.
pub(crate) fn refused<R, W>(reader: R, writer: W) -> Served<R, W>
    ensures { IsRefused reader writer result }
{
    Served {
        reader,
        writer,
        end: End::Memory,
    }
}

//! The requests of a connection: bytes from a reader, and what the heads among them ask for.
//!
//! It stands on the heads of `peer_head`, the wishes of `peer_wish` and the readers of `peer_view`. It promises the requests
//! of the bytes that came, each once, in order, and says why there is no other.
ghost use Rattle.std.specs.Prelude.{◌≡◌, ℕ, ◌+◌, ◌^◌, ◌<◌};
ghost use Rattle.peer_flight.specs.Events.{REPLIES};

use crate::end::ReaderStop;
use peer_head::{FieldPlaces, HeadBuf};
use peer_reply::Wish;
use peer_source::{Names, Source};
use peer_view::{PeerRead, ReadFailed};
use peer_wish::{closes_after, next_kept};
use std::alloc::Global;

/// What the bytes held give.
#[derive(Drop)]
pub(crate) enum NextRequest {
    /// A request whose reply does not close.
    Request(Wish),
    /// One whose reply closes.
    Last(Wish),
    /// They are unfinished.
    Need,
    NoMemory,
}

/// A reader, and the bytes of it that were not given as requests.
#[derive(Drop)]
pub(crate) struct Requests<R: PeerRead> {
    pub(crate) alloc: Global,
    pub(crate) reader: R,
    pub(crate) held: HeadBuf,
    places: FieldPlaces,
    /// How many requests were given that do not close.
    pub(crate) count: u64,
    /// How many reads are left.
    pub(crate) left: u64,
    ghost open: { count < REPLIES },
    ghost calls: { R.calls reader + left < 2 ^ 64 },
}

impl<R: PeerRead> Requests<R> {
    ghost use Rattle.std.specs.Prelude.{◌≡◌, ℕ, ◌+◌, ◌^◌, ◌<◌, List, Option, IfOk, IfErr, OnOk};
    ghost use Rattle.peer_head.specs.Blocks.{IsUnfinished};
    ghost use Rattle.peer_conn.specs.Stops.{IsEndOfReads};
    ghost use Rattle.peer_conn.specs.Requests.{GivesKnown, AreNewRequests, GivesNext, Reads};

    /// Takes all the memory that it ever takes, beside that of keys and of the names of groups that are not known.
    pub(crate) fn new(alloc: Global, reader: R, reads: u64) -> Result<Requests<R>, R>
        requires { R.calls reader + reads < 2 ^ 64 }
        ensures ok { IfOk result (λ q. AreNewRequests reader reads q) }
        ensures err { IfErr result (λ r. r ≡ reader) }
    {
        match HeadBuf::new(alloc) {
            Ok(held) => Ok(Requests {
                alloc,
                reader,
                held,
                places: FieldPlaces::new(),
                count: 0,
                left: reads,
            }),
            Err(_) => Err(reader),
        }
    }

    /// The next request among the bytes held. The last that a connection gets closes.
    pub(crate) fn next_held<S: Source>(&mut self, names: &Names<'_, S>) -> NextRequest
        ensures gives { GivesNext (S.number_of names.now) self.old self.new result }
        ensures known { GivesKnown (S.count names.now) result }
        ensures left { self.new.left ≡ self.old.left }
    {
        let Ok(found) = next_kept(self.alloc, names, self.held.rest(), &mut self.places) else {
            return NextRequest::NoMemory;
        };
        let Some(next) = found else {
            return NextRequest::Need;
        };
        if closes_after(self.count, next.wish.closing) {
            return NextRequest::Last(Wish {
                closing: true,
                ..next.wish
            });
        }
        self.held.drop_front(next.len);
        self.count += 1;
        NextRequest::Request(next.wish)
    }

    /// Reads once, behind the bytes held.
    pub(crate) fn read(&mut self) -> Result<(), ReaderStop>
        requires { IsUnfinished self.old.held.held }
        ensures reads { (numbers : List ℕ → Option ℕ) → Reads numbers self.old self.new result }
        ensures left { OnOk result (self.new.left + 1 ≡ self.old.left) }
        ensures end { IfErr result IsEndOfReads }
    {
        if self.left == 0 {
            return Err(ReaderStop::Spent);
        }
        self.left -= 1;
        match self.reader.read(self.held.room()) {
            Ok(0) if self.held.holds_only_pairs() => Err(ReaderStop::Ended),
            Ok(0) => Err(ReaderStop::Cut),
            Ok(n) => {
                self.held.filled(n);
                Ok(())
            }
            Err(ReadFailed) => Err(ReaderStop::ReadFault),
        }
    }
}

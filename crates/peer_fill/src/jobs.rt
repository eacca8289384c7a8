//! The queue of jobs, and the rule by which it is first in, first out, and no job is lost or made up.
ghost use Rattle.std.specs.Prelude.{◌≡◌, ℕ, ◌+◌, ◌-◌, [], ◌++◌, ⊤, IfOk};
ghost use Rattle.crossbeam_queue.specs.Passes.{view, IsPassOf, ruled_capacity};
ghost use Rattle.peer_fill.specs.Jobs.{pass_log, ALL, Pushed, Popped, FirstInFirstOut, HasInOrder};

use crossbeam_queue::protocol::{Join, Lesson, Outcome, Protocol, Split};
use crossbeam_queue::{Pass, RuledArrayQueue};
use peer_flight::FillRight;
use peer_source::Source;
use peer_view::ByteView;
use std::alloc::{AllocError, Global};
use std::collections::LinkedList;
use std::marker::Model;

// How many jobs the queue has room for.
const MAX_JOBS: usize = 256;

/// The number of a flight, and its rank: how many jobs were pushed before its own. No value of it is made.
pub struct Ranked {
    pub rank: u64,
    pub number: u64,
}

/// What a pass of the queue has pushed and popped, and its parts of the right to know the whole. No value of it is made.
pub struct PassLog {
    pub parts: u64,
    pub pushed: LinkedList<Ranked>,
    pub popped: LinkedList<Ranked>,
}

/// A flight that waits for a worker: its right, and its key. Contracts see its number.
#[derive(Drop)]
pub struct Job<S: Source> {
    pub(crate) right: FillRight<S>,
    pub(crate) key: ByteView,
}

impl<S: Source> Model for Job<S> {
    ghost Value = { ℕ };

    ghost view = { λ j. j.right.number };

    ghost invariant = { λ j. j.key ≡ j.right.place.key };
}

/// First in, first out: of all that was pushed, in this order, the front was popped, and the rest is queued.
pub struct Fair;

impl<S: Source> Protocol<Job<S>, PassLog> for Fair {
    ghost use Rattle.std.specs.Prelude.{[]};
    ghost use Rattle.peer_fill.specs.Jobs.{pass_log, ALL, FirstInFirstOut};

    ghost holds = { FirstInFirstOut };

    ghost first = { pass_log ALL [] [] };
}

/// A pass pushes a job.
pub struct Push;

impl<S: Source> Outcome<Job<S>, PassLog> for Push {
    ghost then = { Pushed };
}

impl<S: Source> Lesson<Job<S>, PassLog> for Push {
    ghost fact = { λ v items. ⊤ };
}

/// A pass pops a job.
pub struct Pop;

impl<S: Source> Outcome<Job<S>, PassLog> for Pop {
    ghost then = { Popped };
}

impl<S: Source> Lesson<Job<S>, PassLog> for Pop {
    ghost fact = { λ v items. ⊤ };
}

/// A pass with all parts knows what is queued, and in which order all was pushed.
pub struct Whole;

impl<S: Source> Lesson<Job<S>, PassLog> for Whole {
    ghost fact = { λ v items. HasInOrder items v };
}

/// The first pass is cut in two, one for each kind of seat.
pub struct Half;

impl Split<PassLog> for Half {
    ghost left = { λ v. pass_log (v.parts - 16) v.pushed v.popped };

    ghost right = { λ v. pass_log 16 [] [] };
}

/// One part is cut off, or a pass is taken in.
pub struct OnePart;

impl Split<PassLog> for OnePart {
    ghost left = { λ v. pass_log (v.parts - 1) v.pushed v.popped };

    ghost right = { λ v. pass_log 1 [] [] };
}

impl Join<PassLog> for OnePart {
    ghost both = { λ v w. pass_log (v.parts + w.parts) (v.pushed ++ w.pushed) (v.popped ++ w.popped) };

    ghost spent = { pass_log 0 [] [] };
}

/// The jobs that wait, oldest first.
pub type Jobs<S> = RuledArrayQueue<Job<S>, PassLog, Fair>;

/// A queue with room for 256 jobs, and its first pass.
pub fn empty_queue<S: Source>(alloc: Global) -> Result<(Jobs<S>, Pass<Job<S>, PassLog>), AllocError>
    ensures pass { IfOk result (λ queue. IsPassOf queue.0 queue.1) }
    ensures log { IfOk result (λ queue. view queue.1 ≡ pass_log ALL [] []) }
    ensures capacity { IfOk result (λ queue. ruled_capacity queue.0 ≡ 256) }
{
    Jobs::<S>::ruled(alloc, MAX_JOBS)
}

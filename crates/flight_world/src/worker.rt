//! Workers: what each has in its hands.
ghost use Rattle.std.specs.Prelude.{◌≡◌, ◌≢◌, ◌↔◌, ℕ, IfOk, IsTrue, MatchOption, replicate};
ghost use Rattle.peer_flight.specs.World.{Idle, Filling, Landing};

use std::alloc::{AllocError, Global};
use std::marker::Model;

/// A worker's hands: nothing, a flight with its right, or a flight whose right is spent.
#[derive(Drop)]
pub enum Hands {
    Empty,
    Filling(u64),
    Landing(u64),
}

/// A worker.
#[derive(Drop)]
pub struct Worker {
    pub(crate) hands: Hands,
}

impl Model for Worker {
    ghost use Rattle.peer_flight.specs.World.{Worker};
    ghost use Rattle.flight_world.specs.Views.{worker_of};

    ghost Value = { Worker };

    ghost view = { λ w. worker_of w.hands };
}

impl Worker {
    pub(crate) fn is_idle(&self) -> bool
        ensures { IsTrue result ↔ (self.now ≡ Idle) }
    {
        matches!(self.hands, Hands::Empty)
    }

    /// The flight whose right it has.
    pub(crate) fn filling(&self) -> Option<u64>
        ensures { MatchOption result ((m : ℕ) → self.now ≢ Filling m) (λ number. self.now ≡ Filling number) }
    {
        match self.hands {
            Hands::Filling(number) => Some(number),
            Hands::Empty | Hands::Landing(_) => None,
        }
    }

    /// The flight that it has, whose right is spent.
    pub(crate) fn landing(&self) -> Option<u64>
        ensures { MatchOption result ((m : ℕ) → self.now ≢ Landing m) (λ number. self.now ≡ Landing number) }
    {
        match self.hands {
            Hands::Landing(number) => Some(number),
            Hands::Empty | Hands::Filling(_) => None,
        }
    }
}

/// So many workers with empty hands.
pub(crate) fn idle_workers(alloc: Global, count: usize) -> Result<Vec<Worker>, AllocError>
    ensures { IfOk result (λ workers. workers.items ≡ replicate count Idle) }
{
    let mut workers = Vec::new(alloc);
    for _made in 0..count {
        workers.push(Worker {
            hands: Hands::Empty,
        })?;
    }
    Ok(workers)
}

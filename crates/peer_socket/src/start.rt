//! The start of the threads of a server: none serves before all have been started.

use std::sync::{Condvar, Mutex, Wait};

// Whether the threads serve.
#[derive(Clone, Copy, PartialEq, Eq)]
enum State {
    Pending,
    Begun,
    Cancelled,
}

/// Where threads wait for one another's start.
#[derive(Drop)]
pub struct Start {
    state: Mutex<State>,
    settled: Condvar,
}

impl Start {
    /// Nothing is settled yet.
    pub fn new() -> Start {
        Start {
            state: Mutex::new(State::Pending),
            settled: Condvar::new(),
        }
    }

    /// All threads have been started, and serve.
    pub fn begin<R: Wait>(&self, rt: &R) {
        self.settle(rt, State::Begun);
    }

    /// A thread could not be started, and none serves.
    pub fn cancel<R: Wait>(&self, rt: &R) {
        self.settle(rt, State::Cancelled);
    }

    fn settle<R: Wait>(&self, rt: &R, state: State) {
        *self.state.lock(rt) = state;
        self.settled.notify_all();
    }

    /// Waits until it is settled whether to serve, and says so.
    pub fn wait<R: Wait>(&self, rt: &R) -> bool {
        let state = self
            .settled
            .wait_while(rt, self.state.lock(rt), |state| *state == State::Pending);
        *state == State::Begun
    }
}

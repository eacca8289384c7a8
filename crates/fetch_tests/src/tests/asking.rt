//! A client of a pool that asks for keys, and wakes who fetches for each.
ghost use Rattle.peer_fill.specs.Pools.{IsConnSeatOf};

use peer_fill::{ConnSeat, Pool};
use peer_flight::Claim;
use peer_runtime::PollWaker;
use peer_source::{Fill, Outcome, Source};
use std::alloc::Global;
use std::sync::Wait;
use std::sync::ledger::Ledger;
use test_support::{ask_for, ask_in};

/// Keys that are asked for one after the other, and what each gives: a value or the text of an error.
pub type Texts<'k> = &'k [(&'k [u8], &'k [u8])];

/// What a client asks for.
#[derive(Clone, Copy)]
pub struct Plan<'k> {
    /// So many keys of the group `hung` first, all at once, to none of which a reply comes.
    pub hung: u32,
    /// Then these.
    pub texts: Texts<'k>,
    /// So many numbers, each once the one before it is answered.
    pub in_turn: u32,
    /// So many numbers, all at once.
    pub together: u32,
}

impl Plan<'_> {
    /// How many keys it asks for.
    pub fn asks(&self) -> u64 {
        (self.texts.len() as u64)
            .saturating_add(u64::from(self.hung))
            .saturating_add(u64::from(self.in_turn))
            .saturating_add(u64::from(self.together))
    }
}

// The value or the text of the error.
fn text_of<S: Source>(fill: &Fill<S>) -> &[u8] {
    match fill.outcome() {
        Outcome::Found(text) | Outcome::Failed(text) => text.as_slice(),
        Outcome::NoMemory => b"no memory",
    }
}

// The digits of a number, as a key.
fn digits(number: u32) -> [u8; 6] {
    let mut digits = [b'0'; 6];
    let mut rest = number;
    for digit in digits.iter_mut() {
        *digit = b'0' + (rest % 10) as u8;
        rest /= 10;
    }
    digits
}

/// What became of a plan: the number of the first text that was wrong, and whether all numbers were right.
#[derive(Clone, Copy, Debug, PartialEq, Eq)]
pub struct Answered {
    pub wrong_text: Option<usize>,
    pub in_turn: bool,
    pub together: bool,
}

impl Answered {
    /// Whether all was answered as it is to be.
    pub fn is_right(&self) -> bool {
        self.wrong_text.is_none() && self.in_turn && self.together
    }
}

/// A client of a pool, and what wakes the thread that fetches.
#[derive(Drop)]
pub struct Client<'p, S: Source, L: Ledger, R> {
    pub rt: &'p R,
    pub alloc: Global,
    pub pool: &'p Pool<S, L>,
    pub waker: &'p PollWaker,
}

impl<'p, S: Source, L: Ledger, R: Wait> Client<'p, S, L, R> {
    // A claim on a key, which the thread is told of.
    fn ask(&self, seat: &mut ConnSeat<S, L>, key: &[u8]) -> Option<Claim<S>>
        requires { IsConnSeatOf self.now.pool.now seat.old }
        ensures { IsConnSeatOf self.now.pool.now seat.new }
    {
        let claim = ask_for(self.rt, self.alloc, self.pool, seat, key);
        let _ = self.waker.wake_asleep();
        claim
    }

    // Asks for so many keys of the group `hung`, and waits for none.
    fn ask_hung(&self, seat: &mut ConnSeat<S, L>, count: u32)
        requires { IsConnSeatOf self.now.pool.now seat.old }
        ensures { IsConnSeatOf self.now.pool.now seat.new }
    {
        let Some(group) = self.pool.names().group(b"hung") else {
            return;
        };
        for number in 0..count {
            let mut key = *b"late000000";
            key[4..].copy_from_slice(&digits(number));
            let claim = ask_in(self.rt, self.alloc, self.pool, seat, group, &key);
            drop(claim);
            let _ = self.waker.wake_asleep();
        }
    }

    // Whether the claim is answered with this text.
    fn shows(&self, claim: &Option<Claim<S>>, text: &[u8]) -> bool {
        match claim {
            Some(claim) => text_of(self.pool.wait_for(self.rt, claim)) == text,
            None => false,
        }
    }

    // Whether a key that is asked for is answered with this text.
    fn is_answered(&self, seat: &mut ConnSeat<S, L>, key: &[u8], text: &[u8]) -> bool
        requires { IsConnSeatOf self.now.pool.now seat.old }
        ensures { IsConnSeatOf self.now.pool.now seat.new }
    {
        let claim = self.ask(seat, key);
        self.shows(&claim, text)
    }

    // Asks for each key. The number of the first that is not answered as it is to be, if there is one.
    fn ask_texts(&self, seat: &mut ConnSeat<S, L>, texts: Texts<'_>) -> Option<usize>
        requires { IsConnSeatOf self.now.pool.now seat.old }
        ensures { IsConnSeatOf self.now.pool.now seat.new }
    {
        for number in 0..texts.len() {
            let (key, text) = texts[number];
            if !self.is_answered(seat, key, text) {
                return Some(number);
            }
        }
        None
    }

    // Asks for so many numbers, each once the one before it is answered. Whether all are right.
    fn ask_in_turn(&self, seat: &mut ConnSeat<S, L>, count: u32) -> bool
        requires { IsConnSeatOf self.now.pool.now seat.old }
        ensures { IsConnSeatOf self.now.pool.now seat.new }
    {
        let mut right = true;
        for number in 0..count {
            let key = digits(number);
            right &= self.is_answered(seat, &key, &key);
        }
        right
    }

    // Asks for so many other numbers at once, and waits then. Whether all are right.
    fn ask_together(&self, seat: &mut ConnSeat<S, L>, count: u32) -> bool
        requires { IsConnSeatOf self.now.pool.now seat.old }
        ensures { IsConnSeatOf self.now.pool.now seat.new }
    {
        let mut claims = Vec::new(self.alloc);
        let mut right = true;
        for number in 500_000..500_000u32.saturating_add(count) {
            let key = digits(number);
            let claim = self.ask(seat, &key);
            right &= claims.push((key, claim)).is_ok();
        }
        for (key, claim) in &claims {
            right &= self.shows(claim, key);
        }
        right
    }

    /// Asks as planned.
    pub fn ask_all(&self, seat: &mut ConnSeat<S, L>, plan: Plan<'_>) -> Answered
        requires { IsConnSeatOf self.now.pool.now seat.old }
        ensures { IsConnSeatOf self.now.pool.now seat.new }
    {
        self.ask_hung(seat, plan.hung);
        let wrong_text = self.ask_texts(seat, plan.texts);
        let in_turn = self.ask_in_turn(seat, plan.in_turn);
        let together = self.ask_together(seat, plan.together);
        Answered {
            wrong_text,
            in_turn,
            together,
        }
    }
}

//! An exchange with its seats of a pool, and what it sent.
ghost use Rattle.std.specs.Prelude.{◌≡◌, All};
ghost use Rattle.peer_fill.specs.Pools.{source_of, IsConnSeatOf, IsFillSeatOf};

use peer_exchange::{End, Exchange, ReplyNotes};
use peer_fill::{ConnSeat, FillSeat, NoGate, Pool, Seats, TakenJob, pop_seat};
use peer_source::DemoSource;
use std::alloc::{AllocError, Global};
use std::cmp::min;
use std::sync::Wait;
use std::sync::ledger::Ledger;
use stream_model::Dice;

// More turns than any text here needs.
const TURNS: usize = 10_000_000;

/// How many bytes come and go in one turn at most.
#[derive(Clone, Copy)]
pub struct Steps {
    pub input: usize,
    pub output: usize,
}

/// An exchange over a pool whose jobs are filled between its calls, and what it sent.
#[derive(Drop)]
pub struct Driven<'a, L: Ledger> {
    pool: &'a Pool<DemoSource, L>,
    conn: ConnSeat<DemoSource, L>,
    fill: FillSeat<DemoSource, L>,
    exchange: Exchange<'a, DemoSource>,
    taken: Vec<TakenJob<DemoSource>>,
    sent: Vec<u8>,
    replies: ReplyNotes,
    ghost conn_of: { IsConnSeatOf pool.now conn },
    ghost fill_of: { IsFillSeatOf pool.now fill },
    ghost names: { exchange.names ≡ source_of pool.now },
}

impl<'a, L: Ledger> Driven<'a, L> {
    /// A connection with these seats. None where one is missing.
    pub fn new(
        alloc: Global,
        pool: &'a Pool<DemoSource, L>,
        lists: Seats<DemoSource, L>,
    ) -> Option<Driven<'a, L>>
        requires fills { All (IsFillSeatOf pool.now) lists.fills.items }
        requires conns { All (IsConnSeatOf pool.now) lists.conns.items }
    {
        let Seats {
            mut fills,
            mut conns,
        } = lists;
        let fill = pop_seat(pool, &mut fills)?;
        let conn = pop_seat(pool, &mut conns)?;
        Some(Driven {
            pool,
            conn,
            fill,
            exchange: Exchange::new(alloc, pool.names()),
            taken: Vec::new(alloc),
            sent: Vec::new(alloc),
            replies: ReplyNotes::new(None),
        })
    }

    /// Another connection of the same seats.
    pub fn begin(&mut self, alloc: Global) {
        self.exchange = Exchange::new(alloc, self.pool.names());
        self.sent = Vec::new(alloc);
    }

    /// What was sent.
    pub fn sent(&self) -> &[u8] {
        &self.sent
    }

    /// How many bytes the exchange holds.
    pub fn held(&self) -> usize {
        self.exchange.held()
    }

    /// The number of the flight whose fill the first ticket waits for.
    pub fn awaits(&self) -> Option<u64> {
        self.exchange.awaits()
    }

    /// Some of the bytes come, or the client's end where none is left. What is left.
    pub fn feed<'t>(&mut self, rest: &'t [u8], most: usize) -> &'t [u8] {
        if rest.is_empty() {
            self.exchange.end();
            return rest;
        }
        if !self.exchange.takes_bytes() {
            return rest;
        }
        match self.exchange.receive(&rest[..min(most, rest.len())]) {
            Ok(n) => &rest[n..],
            Err(_) => rest,
        }
    }

    /// What can be asked is asked.
    pub fn ask_held<H: Wait>(&mut self, rt: &H) {
        let _ = self.exchange.ask_held(rt, self.pool, &mut self.conn);
    }

    /// The same, and all jobs are filled.
    pub fn ask<H: Wait>(&mut self, rt: &H, alloc: Global) {
        self.ask_held(rt);
        self.pool.work_some(rt, alloc, &mut self.fill, 256, &NoGate);
        self.pool.put_left(rt, &mut self.conn);
    }

    /// The same, and what can be answered is.
    pub fn serve<H: Wait>(&mut self, rt: &H, alloc: Global) {
        self.ask(rt, alloc);
        let _ = self
            .exchange
            .answer_ready(self.pool, &mut self.conn, &mut self.replies);
    }

    /// Some of the output goes.
    pub fn take(&mut self, most: usize) -> Result<(), AllocError> {
        let n = min(most, self.exchange.output().len());
        self.sent.extend_from_slice(&self.exchange.output()[..n])?;
        self.exchange.sent(n);
        Ok(())
    }

    /// The whole text comes, and all replies go. How it ended.
    pub fn drive<H: Wait>(
        &mut self,
        rt: &H,
        alloc: Global,
        text: &[u8],
        steps: Steps,
    ) -> Result<Option<End>, AllocError> {
        let mut rest = text;
        for _ in 0..TURNS {
            rest = self.feed(rest, steps.input);
            self.serve(rt, alloc);
            self.take(steps.output)?;
            if self.exchange.is_over() {
                break;
            }
        }
        self.exchange.law();
        self.exchange.law_functional();
        Ok(self.exchange.ended())
    }

    // Takes some of the jobs.
    fn take_jobs<H: Wait>(&mut self, rt: &H, most: usize) -> Result<(), AllocError> {
        for _ in 0..most {
            let Some(job) = self.pool.take_job(rt, &mut self.fill, &NoGate) else {
                break;
            };
            self.taken.push(job)?;
        }
        Ok(())
    }

    // Fills some of the jobs that were taken, in an order by chance.
    fn fill_taken<H: Wait>(&mut self, rt: &H, alloc: Global, dice: &mut Dice, most: usize) {
        for _ in 0..most {
            if self.taken.is_empty() {
                break;
            }
            let job = self.taken.swap_remove(dice.roll(self.taken.len()));
            self.pool.fill_job(rt, alloc, &mut self.fill, job, &NoGate);
        }
    }

    // One turn, in which each step goes as far as chance lets it.
    fn turn<'t, H: Wait>(
        &mut self,
        rt: &H,
        alloc: Global,
        dice: &mut Dice,
        rest: &'t [u8],
        steps: Steps,
    ) -> Result<&'t [u8], AllocError> {
        let coming = dice.roll(steps.input.saturating_add(1));
        let rest = self.feed(rest, coming);
        if dice.roll(4) > 0 {
            self.ask_held(rt);
        }
        self.take_jobs(rt, dice.roll(5))?;
        let filled = dice.roll(5);
        self.fill_taken(rt, alloc, dice, filled);
        self.pool.put_left(rt, &mut self.conn);
        if dice.roll(4) > 0 {
            let _ = self
                .exchange
                .answer_ready(self.pool, &mut self.conn, &mut self.replies);
        }
        self.take(dice.roll(steps.output.saturating_add(1)))?;
        Ok(rest)
    }

    /// The whole text comes and all replies go, in pieces and turns by chance; fills come in another order than their jobs.
    /// How it ended.
    pub fn drive_by_chance<H: Wait>(
        &mut self,
        rt: &H,
        alloc: Global,
        dice: &mut Dice,
        text: &[u8],
        steps: Steps,
    ) -> Result<Option<End>, AllocError> {
        let mut rest = text;
        for _ in 0..TURNS {
            rest = self.turn(rt, alloc, dice, rest, steps)?;
            if self.exchange.is_over() {
                break;
            }
        }
        Ok(self.exchange.ended())
    }

    /// Whether it sends these replies for the text, and ends so.
    pub fn sends<H: Wait>(
        &mut self,
        rt: &H,
        alloc: Global,
        text: &[u8],
        steps: Steps,
        replies: &[u8],
        end: End,
    ) -> Result<bool, AllocError> {
        self.begin(alloc);
        let ended = self.drive(rt, alloc, text, steps)?;
        Ok(
            ended == Some(end)
                && self.exchange.ended_functional() == ended
                && self.sent.as_slice() == replies,
        )
    }
}

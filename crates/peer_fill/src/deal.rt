//! How a pool's queue and ledger are opened, and their parts dealt out to its seats.
ghost use Rattle.std.specs.Prelude.{◌≡◌, ◌<◌, ◌≤◌, [], All, IfOk, vec_len};
ghost use Rattle.crossbeam_queue.specs.Passes.{view, IsPassOf, ruled_capacity};
ghost use Rattle.peer_fill.specs.Counts.{no_asks, no_fills};
ghost use Rattle.peer_fill.specs.Jobs.{pass_log};
ghost use Rattle.peer_fill.specs.Seats.{asks_of, fills_of, HaveAllConns, HaveAllFills};

use crate::jobs::{Half, Job, Jobs, OnePart, PassLog, empty_queue};
use crate::seat::MAX_SEATS;
use crate::seats::{ConnSeat, FillSeat};
use crossbeam_queue::Pass;
use peer_source::{Evicted, Source};
use std::alloc::{AllocError, Global};
use std::sync::ledger::{Blank, Book, Ledger, Share};

/// The queue of a pool, the book of its ledger, and its seats.
#[derive(Drop)]
pub struct Dealt<S: Source, L: Ledger> {
    pub jobs: Jobs<S>,
    pub book: Book<L>,
    pub fills: Vec<FillSeat<S, L>>,
    pub conns: Vec<ConnSeat<S, L>>,
}

// How many entries leave a cache at most before it is unlocked to let go of them.
const EVICTED_AT_ONCE: usize = 64;

// Room for what leaves a cache.
fn no_evicted(alloc: Global) -> Result<Evicted, AllocError>
    ensures { IfOk result (λ evicted. evicted.items ≡ []) }
{
    let mut evicted = Vec::new(alloc);
    evicted.reserve(EVICTED_AT_ONCE)?;
    Ok(evicted)
}

// Deals 16 parts of the queue out to the seats of the workers: one each, and the last has the rest.
fn deal_fills<S: Source, L: Ledger>(
    alloc: Global,
    jobs: &Jobs<S>,
    mut pass: Pass<Job<S>, PassLog>,
    count: usize,
) -> Result<Vec<FillSeat<S, L>>, AllocError>
    requires count { (0 < count) × (count ≤ 16) }
    requires pass { IsPassOf jobs.now pass × (view pass ≡ pass_log 16 [] []) }
    ensures count { IfOk result (λ seats. vec_len seats ≡ count) }
    ensures pass { IfOk result (λ seats. All (λ s. IsPassOf jobs.now s.pass) seats.items) }
    ensures counts { IfOk result (λ seats. All (λ s. fills_of s ≡ no_fills) seats.items) }
    ensures all { IfOk result (λ seats. HaveAllFills seats.items) }
{
    let mut seats = Vec::new(alloc);
    let mut left = MAX_SEATS;
    for _i in 1..count {
        let one = jobs.another::<OnePart>(&mut pass);
        left -= 1;
        seats.push(FillSeat::new(one, 1, no_evicted(alloc)?))?;
    }
    seats.push(FillSeat::new(pass, left, no_evicted(alloc)?))?;
    Ok(seats)
}

// Deals 16 parts of the queue and of the ledger out to the seats of the connections.
fn deal_conns<S: Source, L: Ledger>(
    alloc: Global,
    jobs: &Jobs<S>,
    mut pass: Pass<Job<S>, PassLog>,
    mut share: Share<L>,
    count: usize,
) -> Result<Vec<ConnSeat<S, L>>, AllocError>
    requires count { (0 < count) × (count ≤ 16) }
    requires pass { IsPassOf jobs.now pass × (view pass ≡ pass_log 16 [] []) }
    requires share { (share.parts ≡ 16) × (share.amount ≡ 0) }
    ensures count { IfOk result (λ seats. vec_len seats ≡ count) }
    ensures pass { IfOk result (λ seats. All (λ s. IsPassOf jobs.now s.pass) seats.items) }
    ensures counts { IfOk result (λ seats. All (λ s. asks_of s ≡ no_asks) seats.items) }
    ensures all { IfOk result (λ seats. HaveAllConns seats.items) }
{
    let mut seats = Vec::new(alloc);
    let mut left = MAX_SEATS;
    for _i in 1..count {
        let one = jobs.another::<OnePart>(&mut pass);
        let part = share.split_off(1, 0);
        left -= 1;
        seats.push(ConnSeat::new(one, part, 1))?;
    }
    seats.push(ConnSeat::new(pass, share, left))?;
    Ok(seats)
}

/// Opens the queue and the ledger, and deals all their parts out.
pub fn deal_all<S: Source, L: Ledger>(
    alloc: Global,
    workers: usize,
    conns: usize,
    blank: Blank,
) -> Result<Dealt<S, L>, AllocError>
    requires workers { (0 < workers) × (workers ≤ 16) }
    requires conns { (0 < conns) × (conns ≤ 16) }
    requires blank { (blank.name ≡ L.name) × (blank.parts ≡ L.parts) × (blank.parts ≡ 16) }
    ensures opened { IfOk result (λ dealt. (dealt.book.total ≡ 0) × (ruled_capacity dealt.jobs ≡ 256)) }
    ensures numbers { IfOk result (λ dealt. (vec_len dealt.fills ≡ workers) × (vec_len dealt.conns ≡ conns)) }
    ensures own { IfOk result (λ d. All (λ s. IsPassOf d.jobs s.pass) d.fills.items × All (λ s. IsPassOf d.jobs s.pass) d.conns.items) }
    ensures fresh { IfOk result (λ d. All (λ s. fills_of s ≡ no_fills) d.fills.items × All (λ s. asks_of s ≡ no_asks) d.conns.items) }
    ensures all { IfOk result (λ dealt. HaveAllFills dealt.fills.items × HaveAllConns dealt.conns.items) }
{
    let (jobs, mut pass) = empty_queue(alloc)?;
    let rest = jobs.another::<Half>(&mut pass);
    let (book, share) = blank.open::<L>();
    let fills = deal_fills(alloc, &jobs, rest, workers)?;
    let conns = deal_conns(alloc, &jobs, pass, share, conns)?;
    Ok(Dealt {
        jobs,
        book,
        fills,
        conns,
    })
}

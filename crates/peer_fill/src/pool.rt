//! Pools, and how they begin and end.
ghost use Rattle.std.specs.Prelude.{◌≡◌, ◌+◌, ◌↔◌, All, IfErr, IfOk, IsErrOf, IsOk};
ghost use Rattle.peer_fill.specs.Opens.{IsOutside, IsWithin};
ghost use Rattle.peer_fill.specs.Seats.{HaveAllConns, HaveAllFills};

use crate::cache_counts::CacheCounts;
use crate::caching::Caching;
use crate::close::{CloseFault, Report, gather_conns, gather_fills};
use crate::closed::Closed;
use crate::deal::deal_all;
use crate::jobs::Jobs;
use crate::open::{OpenFault, Opened, check_numbers};
use crate::parts::{has_all_conns, has_all_fills};
use crate::plan::CachePlan;
use crate::seats::{ConnSeat, FillSeat};
use crate::shards::Shards;
use crate::signals::Signals;
use crate::table::{CountedTable, HasSixteenParts};
use crossbeam_utils::CachePadded;
use peer_source::{GroupId, Names, Source};
use std::alloc::Global;
use std::hash::RandomState;
use std::sync::atomic::AtomicBool;
use std::sync::atomic::Ordering::SeqCst;
use std::sync::ledger::{Blank, Ledger};
use std::sync::{Mutex, Wait};

/// Fills, made by workers for connections. Threads share it.
#[derive(Drop)]
pub struct Pool<S: Source, L: Ledger> {
    pub(crate) source: S,
    pub(crate) jobs: Jobs<S>,
    pub(crate) table: Mutex<CountedTable<S, L>>,
    pub(crate) caches: Shards<S>,
    pub(crate) signals: Signals,
    pub(crate) stopping: CachePadded<AtomicBool>,
    ledger_parts: HasSixteenParts<L>,
}

impl<S: Source, L: Ledger> Pool<S, L> {
    ghost use Rattle.peer_fill.specs.Closes.{Gathers, HandsBack};
    ghost use Rattle.peer_fill.specs.Openings.{Opens};
    ghost use Rattle.peer_fill.specs.Pools.{source_of, IsConnSeatOf, IsFillSeatOf};
    ghost use Rattle.peer_fill.specs.Totals.{AddsUp};

    /// A pool with a seat for each who fills and for each who asks. The blank names the ledger of the flights that
    /// are led, in 16 parts. Each group of the source has one cache, as groupcache has it, of at most so many bytes; the seed
    /// is for the maps of its keys.
    pub fn open(
        alloc: Global,
        source: S,
        cache_bytes: u64,
        seed: RandomState,
        workers: usize,
        conns: usize,
        blank: Blank,
    ) -> Result<Opened<S, L>, OpenFault>
        requires name { blank.name ≡ L.name }
        requires parts { blank.parts ≡ L.parts }
        requires sixteen { blank.parts ≡ 16 }
        ensures workers { IsErrOf result OpenFault.Workers ↔ IsOutside 16 workers }
        ensures conns { IsErrOf result OpenFault.Conns ↔ (IsWithin 16 workers × IsOutside 16 conns) }
        ensures groups { IsErrOf result OpenFault.Groups ↔ (IsWithin 16 workers × IsWithin 16 conns × IsOutside 64 (S.count source)) }
        ensures memory { IsErrOf result OpenFault.Memory → IsWithin 16 workers × IsWithin 16 conns × IsWithin 64 (S.count source) }
        ensures opened { IfOk result (Opens source workers conns) }
    {
        let caching = Caching {
            plan: CachePlan::Single(cache_bytes),
            own: &[],
            seed,
        };
        Pool::open_with(alloc, source, caching, workers, conns, blank)
    }

    /// As `open`, with caches as they are planned.
    pub fn open_with(
        alloc: Global,
        source: S,
        caching: Caching<'_>,
        workers: usize,
        conns: usize,
        blank: Blank,
    ) -> Result<Opened<S, L>, OpenFault>
        requires name { blank.name ≡ L.name }
        requires parts { blank.parts ≡ L.parts }
        requires sixteen { blank.parts ≡ 16 }
        ensures workers { IsErrOf result OpenFault.Workers ↔ IsOutside 16 workers }
        ensures conns { IsErrOf result OpenFault.Conns ↔ (IsWithin 16 workers × IsOutside 16 conns) }
        ensures groups { IsErrOf result OpenFault.Groups ↔ (IsWithin 16 workers × IsWithin 16 conns × IsOutside 64 (S.count source)) }
        ensures memory { IsErrOf result OpenFault.Memory → IsWithin 16 workers × IsWithin 16 conns × IsWithin 64 (S.count source) }
        ensures opened { IfOk result (Opens source workers conns) }
    {
        let groups = source.group_count();
        check_numbers(workers, conns, groups)?;
        let caches = Shards::new(alloc, groups, caching)?;
        let dealt = deal_all::<S, L>(alloc, workers, conns, blank)?;
        let pool = Pool {
            source,
            jobs: dealt.jobs,
            table: Mutex::new(CountedTable::new(alloc, dealt.book)),
            caches,
            signals: Signals::new(),
            stopping: CachePadded::new(AtomicBool::new(false)),
            ledger_parts: HasSixteenParts::new(),
        };
        Ok(Opened {
            pool,
            fills: dealt.fills,
            conns: dealt.conns,
        })
    }

    /// The names of the source's groups.
    pub fn names(&self) -> Names<'_, S>
        ensures { result ≡ source_of self.now }
    {
        Names::of(&self.source)
    }

    /// The bytes that the caches of all groups keep, as they count them.
    pub fn cached_bytes<R: Wait>(&self, rt: &R) -> u64 {
        self.caches.bytes(rt)
    }

    /// How many groups the source has.
    pub fn group_count(&self) -> usize
        ensures { result ≡ S.count (source_of self.now) }
    {
        self.source.group_count()
    }

    /// What the caches of a group keep and have lost.
    pub fn cache_counts<R: Wait>(&self, rt: &R, group: GroupId) -> CacheCounts {
        self.caches.counts(rt, group)
    }

    /// Tells the workers to return once they find no job.
    pub fn stop(&self) {
        self.stopping.store(true, SeqCst);
        self.signals.job.notify_all();
    }

    /// Ends the pool, where all its seats are handed in: those of `open` have all parts, and no seat loses one.
    pub fn end(
        self,
        fills: Vec<FillSeat<S, L>>,
        conns: Vec<ConnSeat<S, L>>,
    ) -> Result<Closed<S, L>, CloseFault<S, L>>
        requires fills { All (IsFillSeatOf self) fills.items }
        requires conns { All (IsConnSeatOf self) conns.items }
        ensures exactly { IsOk result ↔ (HaveAllFills fills.items × HaveAllConns conns.items) }
        ensures gathers { IfOk result (Gathers fills.items conns.items) }
        ensures back { IfErr result (λ fault. HandsBack fault self fills conns) }
    {
        let all_fills = has_all_fills(&fills);
        let all_conns = has_all_conns(&conns);
        if !all_fills || !all_conns {
            return Err(CloseFault::SeatsMissing {
                pool: self,
                fills,
                conns,
            });
        }
        let Pool {
            source: _,
            jobs,
            table,
            caches: _,
            signals: _,
            stopping: _,
            ledger_parts,
        } = self;
        let totals = gather_conns(&jobs, conns);
        let totals = gather_fills(&jobs, totals, fills);
        Ok(Closed {
            jobs,
            table: table.into_inner(),
            sixteen: ledger_parts,
            totals,
        })
    }

    /// Ends the pool, where all its seats are handed in, and tells what it counted.
    pub fn close<R: Wait>(
        self,
        rt: &R,
        fills: Vec<FillSeat<S, L>>,
        conns: Vec<ConnSeat<S, L>>,
    ) -> Result<Report, CloseFault<S, L>>
        requires fills { All (IsFillSeatOf self) fills.items }
        requires conns { All (IsConnSeatOf self) conns.items }
        ensures exactly { IsOk result ↔ (HaveAllFills fills.items × HaveAllConns conns.items) }
        ensures sums { IfOk result (AddsUp fills.items conns.items) }
        ensures each_ask { IfOk result (λ report. report.asked ≡ report.hits + report.led + report.joined) }
        ensures each_flight { IfOk result (λ report. report.led ≡ report.calls + report.rehits + report.left) }
        ensures back { IfErr result (λ fault. HandsBack fault self fills conns) }
    {
        match self.end(fills, conns) {
            Ok(closed) => Ok(closed.report(rt)),
            Err(fault) => Err(fault),
        }
    }
}

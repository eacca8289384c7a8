//! What all threads of a server share to count.
ghost use Rattle.std.specs.Prelude.{◌≡◌, IfOk, length, map, min};

use crate::counts::{
    AskCounts, CloseCounts, Counts, FillerCounts, GroupCounts, LoopCounts, ReplyCounts,
    TrafficCounts,
};
use crate::facts::{ServedGroup, ServedService};
use crate::service_counts::ServiceCounts;
use crate::service_slots::ServiceSlots;
use crate::slots::{AcceptSlot, CacheSlot, FailureSlots, FillerSlot, LoopSlot, MAX_GROUPS};
use crate::state::Stage;
use crate::still::Looks;
use crate::time_slots::{FetchTimes, GroupTimes};
use crate::times::LoopTurns;
use crossbeam_utils::CachePadded;
use std::alloc::{AllocError, Global};
use std::sync::atomic::AtomicU64;
use std::sync::atomic::Ordering::SeqCst;

// How many slots there are of each kind: the most seats of a kind that a pool has.
const MAX_SLOTS: usize = 16;

// The stages of a server as numbers.
const STARTS: u64 = 0;

const SERVES: u64 = 1;

const ENDS: u64 = 2;

/// What looks at each loop have found.
pub(crate) type LoopLooks = [Looks; MAX_SLOTS];

/// There was no look at any loop.
pub(crate) const NO_LOOKS: LoopLooks = [Looks::NONE; MAX_SLOTS];

/// The slots of a server. No two threads write the same line of memory, but where origins fail and where the bytes of the
/// caches are published.
#[derive(Drop)]
pub struct Counters {
    loops: [CachePadded<LoopSlot>; MAX_SLOTS],
    fillers: [CachePadded<FillerSlot>; MAX_SLOTS],
    groups: [CachePadded<CacheSlot>; MAX_GROUPS],
    accepts: CachePadded<AcceptSlot>,
    failures: CachePadded<FailureSlots>,
    fetch_times: CachePadded<FetchTimes>,
    waits: CachePadded<GroupTimes>,
    services: CachePadded<ServiceSlots>,
    cache_bytes: CachePadded<AtomicU64>,
    untaken_bytes: CachePadded<AtomicU64>,
    log_dropped: CachePadded<AtomicU64>,
    stage: CachePadded<AtomicU64>,
}

impl Counters {
    /// Nothing was counted.
    pub fn new() -> Counters {
        Counters {
            loops: Default::default(),
            fillers: Default::default(),
            groups: Default::default(),
            accepts: Default::default(),
            failures: Default::default(),
            fetch_times: Default::default(),
            waits: Default::default(),
            services: Default::default(),
            cache_bytes: Default::default(),
            untaken_bytes: Default::default(),
            log_dropped: Default::default(),
            stage: Default::default(),
        }
    }

    /// The slot of the loop with this number. Numbers from 16 on have that of the number modulo 16.
    pub fn of_loop(&self, number: usize) -> &LoopSlot {
        &self.loops[number % MAX_SLOTS]
    }

    /// The slot of the filler with this number. Numbers from 16 on have that of the number modulo 16.
    pub fn of_filler(&self, number: usize) -> &FillerSlot {
        &self.fillers[number % MAX_SLOTS]
    }

    /// The slot of the cache of the group with this number. Numbers from 64 on have that of the number modulo 64.
    pub fn of_group(&self, number: usize) -> &CacheSlot {
        &self.groups[number % MAX_GROUPS]
    }

    /// The slot of the thread that accepts.
    pub fn accepts(&self) -> &AcceptSlot {
        &self.accepts
    }

    /// Where the failures of origins are counted.
    pub fn failures(&self) -> &FailureSlots {
        &self.failures
    }

    /// Where is counted how long values take that are fetched.
    pub fn fetch_times(&self) -> &FetchTimes {
        &self.fetch_times
    }

    /// Where is counted how long clients wait for values.
    pub fn waits(&self) -> &GroupTimes {
        &self.waits
    }

    /// Where is counted of services.
    pub fn services(&self) -> &ServiceSlots {
        &self.services
    }

    /// All caches together have so many bytes.
    pub fn publish_cache_bytes(&self, bytes: u64) {
        self.cache_bytes.store(bytes, SeqCst);
    }

    /// Clients have so many bytes that they have not taken.
    pub fn publish_untaken_bytes(&self, bytes: u64) {
        self.untaken_bytes.store(bytes, SeqCst);
    }

    /// So many replies have no line in the access log.
    pub fn count_log_dropped(&self, replies: u64) {
        if replies > 0 {
            self.log_dropped.fetch_add(replies, SeqCst);
        }
    }

    /// The server is so far.
    pub fn publish_stage(&self, stage: Stage) {
        let number = match stage {
            Stage::Starts => STARTS,
            Stage::Serves => SERVES,
            Stage::Ends => ENDS,
        };
        self.stage.store(number, SeqCst);
    }

    /// How far the server is.
    pub fn stage(&self) -> Stage {
        match self.stage.load(SeqCst) {
            STARTS => Stage::Starts,
            SERVES => Stage::Serves,
            _ => Stage::Ends,
        }
    }

    /// Looks at each loop once more. Whether one stands still.
    pub(crate) fn look_at_loops(&self, looks: &mut LoopLooks) -> bool {
        let mut stands_still = false;
        for number in 0..MAX_SLOTS {
            looks[number] = looks[number].and(self.loops[number].read_turn());
            stands_still |= looks[number].stands_still();
        }
        stands_still
    }

    // What all loops have published.
    fn read_loops(&self) -> LoopCounts {
        let mut sum = LoopCounts::NONE;
        for slot in &self.loops {
            sum = sum.plus(slot.read());
        }
        sum
    }

    // What all fillers have published.
    fn read_fillers(&self) -> FillerCounts {
        let mut sum = FillerCounts::NONE;
        for slot in &self.fillers {
            sum = sum.plus(slot.read());
        }
        sum
    }

    // The replies that all loops have published.
    fn read_replies(&self) -> ReplyCounts {
        let mut sum = ReplyCounts::NONE;
        for slot in &self.loops {
            sum = sum.plus(slot.read_replies());
        }
        sum
    }

    // The bytes of the clients of all loops.
    fn read_traffic(&self) -> TrafficCounts {
        let mut sum = TrafficCounts::NONE;
        for slot in &self.loops {
            sum = sum.plus(slot.read_traffic());
        }
        sum
    }

    // The connections of all loops that ended.
    fn read_closes(&self) -> CloseCounts {
        let mut sum = CloseCounts::NONE;
        for slot in &self.loops {
            sum = sum.plus(slot.read_closes());
        }
        sum
    }

    // What all loops have published of the group with this number.
    fn read_asks(&self, group: usize) -> AskCounts {
        let mut sum = AskCounts::NONE;
        for slot in &self.loops {
            sum = sum.plus(slot.read_group(group));
        }
        sum
    }

    // What all fillers have counted of the group with this number.
    fn read_fills(&self, group: usize) -> FillerCounts {
        let mut sum = FillerCounts::NONE;
        for slot in &self.fillers {
            sum = sum.plus(slot.read_group(group));
        }
        sum
    }

    /// These groups, which stand in the order of their numbers, with what was published of them.
    pub fn read_groups<'n>(
        &self,
        alloc: Global,
        served: &'n [ServedGroup],
    ) -> Result<Vec<GroupCounts<'n>>, AllocError>
        ensures names { IfOk result (λ groups. map (λ g. g.name.now) groups.items ≡ map (λ s. s.name.items) served.now) }
        ensures limits { IfOk result (λ groups. map (λ g. g.limits) groups.items ≡ map (λ s. s.limits) served.now) }
    {
        let mut groups = Vec::new(alloc);
        for (number, group) in served.iter().enumerate() {
            groups.push(GroupCounts {
                name: group.name.as_slice(),
                asks: self.read_asks(number),
                fills: self.read_fills(number),
                failures: self.failures.read_group(number),
                cache: self.of_group(number).read(),
                limits: group.limits,
                fetches: self.fetch_times.read_group(number),
                waits: self.waits.read(number),
            })?;
        }
        Ok(groups)
    }

    /// These services with what was counted of them.
    pub fn read_services<'n>(
        &self,
        alloc: Global,
        served: &'n [ServedService],
    ) -> Result<Vec<ServiceCounts<'n>>, AllocError>
        ensures { IfOk result (λ services. map (λ s. s.name.now) services.items ≡ map (λ s. s.name.items) served.now) }
    {
        let mut services = Vec::new(alloc);
        for service in served {
            services.push(self.services.read(service.number, service.name.as_slice()))?;
        }
        Ok(services)
    }

    /// What was published by now, but for what was of each group.
    pub fn read(&self) -> Counts {
        Counts {
            loops: self.read_loops(),
            replies: self.read_replies(),
            traffic: self.read_traffic(),
            closes: self.read_closes(),
            fillers: self.read_fillers(),
            accepts: self.accepts.read(),
            failures: self.failures.read(),
            cache_bytes: self.cache_bytes.load(SeqCst),
            untaken_bytes: self.untaken_bytes.load(SeqCst),
            log_dropped: self.log_dropped.load(SeqCst),
            queued: self.fetch_times.read_queued(),
        }
    }

    /// How long the turns of so many loops took, 16 at most, in the order of their numbers.
    pub fn read_turns(&self, alloc: Global, loops: usize) -> Result<Vec<LoopTurns>, AllocError>
        ensures { IfOk result (λ turns. length turns.items ≡ min loops 16) }
    {
        let mut all = Vec::new(alloc);
        for number in 0..loops.min(MAX_SLOTS) {
            all.push(LoopTurns {
                number: number as u64,
                turns: self.loops[number].read_turns(),
            })?;
        }
        Ok(all)
    }
}

//! A fetch thread, an origin and a client, each in a thread, and what the client sees.
ghost use Rattle.std.specs.Prelude.{◌≡◌, All};
ghost use Rattle.peer_fill.specs.Pools.{source_of, IsConnSeatOf, IsFillSeatOf};
ghost use Rattle.peer_fetch.specs.Threads.{Allows};

use super::asking::{Answered, Client, Plan};
use super::lookup::endpoint_of;
use super::origin::{Told, serve};
use peer_fetch::{FetchParts, FetchPlan, FetchThread, FetchThreadSettings};
use peer_fill::{ConnSeat, FillSeat, NoGate, Pool, Report, Seats, pop_seat};
use peer_origin::{Endpoint, FetchSettings, Origin, OriginSource, Wires};
use peer_runtime::{Host, Network, PollWaker, PollWakers};
use peer_source::Source;
use peer_stats::{Counters, FailureCounts};
use peer_value::Endpoints;
use std::alloc::Global;
use std::net::{Net, TcpListener};
use std::sync::atomic::Ordering::SeqCst;
use std::sync::ledger::{Blank, Ledger};
use std::thread;
use std::time::Duration;
use test_support::{close_pool, open_pool, push_seat};

/// What is run: the groups of an origin, which holds its replies back until so many requests were open, and a client's plan.
#[derive(Clone, Copy)]
pub struct Setting<'k> {
    pub groups: Groups<'k>,
    pub hold: usize,
    pub plan: Plan<'k>,
    pub settings: FetchThreadSettings,
}

/// What was seen: by the client; by the origin, how many requests came and how many were open at most; and what was counted of
/// values that were not fetched.
#[derive(Clone, Copy, Debug, PartialEq, Eq)]
pub struct Seen {
    pub answered: Answered,
    pub requests: usize,
    pub open: usize,
    pub failures: FailureCounts,
}

// An origin and the plan of its client.
#[derive(Drop)]
struct Beside<'t, 'k> {
    listener: TcpListener,
    told: &'t Told,
    setting: Setting<'k>,
}

// Asks beside the origin, and then tells the origin and the fetch thread to end.
fn ask_beside<S: Source + Send + Sync, L: Ledger + Send + Sync, H: Host>(
    rt: &H,
    alloc: Global,
    pool: &Pool<S, L>,
    conn: ConnSeat<S, L>,
    waker: &PollWaker,
    beside: Beside<'_, '_>,
) -> (ConnSeat<S, L>, Answered)
    requires conn { IsConnSeatOf pool.now conn }
    ensures { IsConnSeatOf pool.now result.0 }
{
    let Beside {
        listener,
        told,
        setting,
    } = beside;
    let mut conn = conn;
    let ((), asked) = thread::join(
        rt,
        move || { serve(rt, alloc, listener, setting.hold, told) },
        move || -> (ConnSeat<S, L>, Answered)
            requires conn { IsConnSeatOf pool.now conn }
            ensures { IsConnSeatOf pool.entry.now result.0 }
        {
            let client = Client {
                rt,
                alloc,
                pool,
                waker,
            };
            let answered = client.ask_all(&mut conn, setting.plan);
            told.stopping.store(true, SeqCst);
            waker.close();
            (conn, answered)
        },
    );
    asked
}

// No thread fetched.
const UNANSWERED: Answered = Answered {
    wrong_text: None,
    in_turn: false,
    together: false,
};

// Runs a fetch thread beside an origin and a client.
fn run_all<S: Source + Send + Sync, L: Ledger + Send + Sync, H: Host + Wires>(
    rt: &H,
    alloc: Global,
    pool: &Pool<S, L>,
    seats: (FillSeat<S, L>, ConnSeat<S, L>),
    running: (FetchThread<'_>, PollWakers),
    beside: Beside<'_, '_>,
) -> (FillSeat<S, L>, ConnSeat<S, L>, Answered)
    requires fill { IsFillSeatOf pool.now seats.0 }
    requires conn { IsConnSeatOf pool.now seats.1 }
    requires answers { Allows H.carried (S.answers (source_of pool.now)) running.0.plan }
    ensures fill { IsFillSeatOf pool.now result.0 }
    ensures conn { IsConnSeatOf pool.now result.1 }
{
    let (fill, conn) = seats;
    let (thread, wakers) = running;
    let Some(waker) = wakers.at(0) else {
        return (fill, conn, UNANSWERED);
    };
    let (fill, (conn, answered)) = thread::join(
        rt,
        move || -> FillSeat<S, L>
            requires fill { IsFillSeatOf pool.now fill }
            requires answers { Allows H.carried (S.answers (source_of pool.now)) thread.plan }
            ensures { IsFillSeatOf pool.entry.now result }
        { thread.run(rt, pool, fill, waker, &NoGate) },
        move || -> (ConnSeat<S, L>, Answered)
            requires conn { IsConnSeatOf pool.now conn }
            ensures { IsConnSeatOf pool.entry.now result.0 }
        { ask_beside(rt, alloc, pool, conn, waker.own, beside) },
    );
    (fill, conn, answered)
}

// Runs a fetch thread with the seats of these lists.
fn use_lists<S: Source + Send + Sync, L: Ledger + Send + Sync, H: Host + Wires>(
    rt: &H,
    alloc: Global,
    pool: &Pool<S, L>,
    lists: &mut Seats<S, L>,
    running: (FetchThread<'_>, PollWakers),
    beside: Beside<'_, '_>,
) -> Option<Answered>
    requires fills { All (IsFillSeatOf pool.now) lists.old.fills.items }
    requires conns { All (IsConnSeatOf pool.now) lists.old.conns.items }
    requires answers { Allows H.carried (S.answers (source_of pool.now)) running.0.plan }
    ensures fills { All (IsFillSeatOf pool.now) lists.new.fills.items }
    ensures conns { All (IsConnSeatOf pool.now) lists.new.conns.items }
{
    let fill = pop_seat(pool, &mut lists.fills)?;
    let conn = pop_seat(pool, &mut lists.conns)?;
    let (fill, conn, answered) = run_all(rt, alloc, pool, (fill, conn), running, beside);
    push_seat(pool, &mut lists.fills, fill)?;
    push_seat(pool, &mut lists.conns, conn)?;
    Some(answered)
}

// Runs a fetch thread with a pool's seats, and closes the pool.
fn run_opened<S: Source + Send + Sync, L: Ledger + Send + Sync, H: Host + Wires>(
    rt: &H,
    alloc: Global,
    opened: (Pool<S, L>, Seats<S, L>),
    running: (FetchThread<'_>, PollWakers),
    beside: Beside<'_, '_>,
) -> (Option<Answered>, Option<Report>)
    requires fills { All (IsFillSeatOf opened.0) opened.1.fills.items }
    requires conns { All (IsConnSeatOf opened.0) opened.1.conns.items }
    requires answers { Allows H.carried (S.answers (source_of opened.0)) running.0.plan }
{
    let (pool, mut lists) = opened;
    let answered = use_lists(rt, alloc, &pool, &mut lists, running, beside);
    (answered, close_pool(rt, pool, lists))
}

/// A listener, and the origins at its endpoint.
#[derive(Drop)]
pub struct Prepared {
    pub listener: TcpListener,
    pub origins: Vec<Origin>,
}

/// Groups, and the host of each.
pub type Groups<'k> = &'k [(&'k [u8], &'k str)];

/// A listener on a free port of the loopback address, which the hosts of these groups have.
pub fn prepare<H: Network>(rt: &H, alloc: Global, groups: Groups<'_>) -> Option<Prepared> {
    let listener = TcpListener::bind(rt, "127.0.0.1:0").ok()?;
    let mut origins = Vec::new(alloc);
    for (group, host) in groups {
        let endpoint = endpoint_of(alloc, &listener, host, "")?;
        let name = group.to_vec(alloc).ok()?;
        origins.push(Origin::new(name, endpoint)).ok()?;
    }
    Some(Prepared { listener, origins })
}

/// What a thread fetches by, from these endpoints.
pub fn plan_of<'a>(
    endpoints: &'a [Endpoint],
    settings: FetchThreadSettings,
    counters: &'a Counters,
) -> FetchPlan<'a>
    ensures first { result.endpoints.first ≡ 0 }
    ensures each { result.endpoints.each.now ≡ endpoints.now }
{
    FetchPlan {
        endpoints: Endpoints {
            first: 0,
            each: endpoints,
            groups: endpoints.len(),
        },
        settings,
        failures: counters.failures(),
        times: counters.fetch_times(),
        services: counters.services(),
        slow: None,
    }
}

// What a thread needs that fetches by this plan, and what wakes it.
fn parts_of<H: Net>(
    rt: &H,
    alloc: Global,
    plan: &FetchPlan<'_>,
) -> Option<(FetchParts, PollWakers)> {
    let (parts, waker) = FetchParts::new(rt, alloc, plan)?;
    let mut each = Vec::new(alloc);
    each.push(waker).ok()?;
    Some((parts, PollWakers::new(each)))
}

// What is seen of a setting at the endpoints of these origins, and what was counted of values that were not fetched.
fn see_at<L: Ledger + Send + Sync, H: Host + Wires>(
    rt: &H,
    alloc: Global,
    origins: Vec<Origin>,
    beside: Beside<'_, '_>,
    blank: Blank,
) -> Option<(Option<Answered>, Option<Report>, FailureCounts)>
    requires name { blank.name ≡ L.name }
    requires parts { (blank.parts ≡ L.parts) × (blank.parts ≡ 16) }
{
    let settings = beside.setting.settings;
    let counters = Counters::new();
    let source: OriginSource<'_, H> = OriginSource::new(origins);
    let Ok(endpoints) = source.endpoints(alloc) else {
        return None;
    };
    let (parts, wakers) = parts_of(
        rt,
        alloc,
        &plan_of(endpoints.as_slice(), settings, &counters),
    )?;
    let plan = plan_of(endpoints.as_slice(), settings, &counters);
    let running = (FetchThread::new(alloc, parts, plan), wakers);
    let opened = open_pool::<OriginSource<'_, H>, L>(alloc, source, 0, 1, 1, blank);
    let Some(opened) = opened else {
        return None;
    };
    let (answered, report) = run_opened(rt, alloc, opened, running, beside);
    Some((answered, report, counters.failures().read()))
}

/// What is seen of a setting, and the report of its pool.
pub fn see_over<L: Ledger + Send + Sync, H: Host + Wires>(
    rt: &H,
    alloc: Global,
    setting: Setting<'_>,
    blank: Blank,
) -> Option<(Seen, Option<Report>)>
    requires name { blank.name ≡ L.name }
    requires parts { (blank.parts ≡ L.parts) × (blank.parts ≡ 16) }
{
    let Prepared { listener, origins } = prepare(rt, alloc, setting.groups)?;
    let told = Told::new();
    let beside = Beside {
        listener,
        told: &told,
        setting,
    };
    let (answered, report, failures) = see_at::<L, H>(rt, alloc, origins, beside, blank)?;
    let seen = Seen {
        answered: answered?,
        requests: told.requests.load(SeqCst),
        open: told.open.load(SeqCst),
        failures,
    };
    Some((seen, report))
}

/// Times that no test is to meet.
pub fn patient() -> FetchThreadSettings {
    FetchThreadSettings {
        fetch: FetchSettings {
            connect: Duration::from_secs(20),
            value: Duration::from_secs(40),
            ..FetchSettings::usual()
        },
        under_way: 256,
        pause: Duration::from_millis(1),
    }
}

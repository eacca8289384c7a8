//! The words that the program is called with.
ghost use Rattle.std.specs.Prelude.{◌≤◌, ◌^◌, IfOk, IfSome};
ghost use Rattle.peer_flags.specs.Times.{IsTime};

use crate::address::{ListenAddress, PageAddress, listen, stats};
use crate::fault::{BadWord, WordFault};
use crate::log::log;
use crate::size::number_of;
use crate::word::{MAX_CACHE_KEYS, bytes_in, time_in};
use clap::ArgMatches;
use clap::parser::ValueSource;
use peer_log::LogForm;
use std::time::Duration;

// The most workers, and the most loops.
const MAX_THREADS: u64 = 16;

// The most threads that fetch values of services.
const MAX_FETCHERS: u64 = 4;

// The most values of services that one of them has under way.
const MAX_UNDER_WAY: u64 = 1024;

// The most connections.
const MAX_CONNECTIONS: u64 = 65_536;

// The most values in a row that are late at an address until it rests.
const MAX_REST_AFTER: u64 = 1000;

// The flags that say how services are asked.
const FOR_SERVICES: [&str; 9] = [
    "fetchers",
    "under-way",
    "timeout",
    "connect-timeout",
    "wait",
    "rest-after",
    "rest",
    "connection-for-each",
    "slow",
];

/// What the program is asked to do.
#[derive(Clone, Copy, Debug, PartialEq, Eq)]
pub struct Options<'w> {
    pub listen: ListenAddress<'w>,
    /// Whether it is only said what would be served.
    pub check: bool,
    pub demo: bool,
    pub table: Option<&'w str>,
    pub fetchers: usize,
    pub under_way: usize,
    pub workers: usize,
    pub loops: usize,
    pub connections: usize,
    pub cache_bytes: u64,
    /// The most keys of the cache of each group, if there is such a bound.
    pub cache_keys: Option<u64>,
    pub memory: usize,
    pub timeout: Duration,
    pub connect_timeout: Duration,
    /// How long a key may wait until its service may be asked for it.
    pub wait: Duration,
    /// How many values in a row are late at an address until it rests.
    pub rest_after: u32,
    pub rest: Duration,
    pub connection_for_each: bool,
    /// How long a value of a service may take until it is told, if such values are.
    pub slow: Option<Duration>,
    pub stats: Option<PageAddress<'w>>,
    pub log: LogForm,
    /// The file that has a line for each reply, if there is one; `-` is standard output.
    pub access_log: Option<&'w str>,
    pub until_eof: bool,
    /// The first flag given that is for services alone, without its dashes.
    pub for_services: Option<&'static str>,
}

// The number of a flag.
fn number<'w>(
    matches: &ArgMatches<'w>,
    flag: &'w str,
    least: u64,
    most: u64,
) -> Result<u64, BadWord<'w>>
    ensures { IfOk result (λ number. (least ≤ number) × (number ≤ most)) }
{
    let word = matches.get_str(flag).unwrap_or("");
    match number_of(word, least, most) {
        Some(number) => Ok(number),
        None => Err(BadWord {
            flag,
            word,
            fault: WordFault::Number(least, most),
        }),
    }
}

// The number of a flag, if it is given.
fn number_if_given<'w>(
    matches: &ArgMatches<'w>,
    flag: &'w str,
    least: u64,
    most: u64,
) -> Result<Option<u64>, BadWord<'w>>
    ensures { IfOk result (λ given. IfSome given (λ number. (least ≤ number) × (number ≤ most))) }
{
    if matches.get_str(flag).is_none() {
        return Ok(None);
    }
    match number(matches, flag, least, most) {
        Ok(number) => Ok(Some(number)),
        Err(bad) => Err(bad),
    }
}

// The size of a flag.
fn size<'w>(matches: &ArgMatches<'w>, flag: &'w str) -> Result<u64, BadWord<'w>> {
    let word = matches.get_str(flag).unwrap_or("");
    match bytes_in(word) {
        Ok(bytes) => Ok(bytes),
        Err(fault) => Err(BadWord { flag, word, fault }),
    }
}

// The time of a flag.
fn time<'w>(matches: &ArgMatches<'w>, flag: &'w str) -> Result<Duration, BadWord<'w>>
    ensures { IfOk result IsTime }
{
    let word = matches.get_str(flag).unwrap_or("");
    match time_in(word) {
        Ok(time) => Ok(time),
        Err(fault) => Err(BadWord { flag, word, fault }),
    }
}

// The time of a flag, and this one if it is not given.
fn time_or<'w>(
    matches: &ArgMatches<'w>,
    flag: &'w str,
    other: Duration,
) -> Result<Duration, BadWord<'w>>
    requires { IsTime other }
    ensures { IfOk result IsTime }
{
    if matches.get_str(flag).is_none() {
        return Ok(other);
    }
    time(matches, flag)
}

// The time of a flag, if it is given.
fn time_if_given<'w>(
    matches: &ArgMatches<'w>,
    flag: &'w str,
) -> Result<Option<Duration>, BadWord<'w>>
    ensures { IfOk result (λ given. IfSome given IsTime) }
{
    if matches.get_str(flag).is_none() {
        return Ok(None);
    }
    match time(matches, flag) {
        Ok(time) => Ok(Some(time)),
        Err(bad) => Err(bad),
    }
}

// The first flag given that is for services alone.
fn first_for_services(matches: &ArgMatches<'_>) -> Option<&'static str> {
    for flag in FOR_SERVICES {
        if let Some(ValueSource::CommandLine) = matches.value_source(flag) {
            return Some(flag);
        }
    }
    None
}

// The numbers of threads, and how much they have to do at one moment.
#[derive(Clone, Copy)]
struct Counts {
    fetchers: usize,
    under_way: usize,
    workers: usize,
    loops: usize,
    connections: usize,
}

impl Counts {
    // What the words say, or the first that cannot be used.
    fn of<'w>(matches: &ArgMatches<'w>) -> Result<Counts, BadWord<'w>>
        ensures fetchers { IfOk result (λ c. (1 ≤ c.fetchers) × (c.fetchers ≤ 4)) }
        ensures under_way { IfOk result (λ c. (1 ≤ c.under_way) × (c.under_way ≤ 1024)) }
        ensures workers { IfOk result (λ c. c.workers ≤ 16) }
        ensures loops { IfOk result (λ c. (1 ≤ c.loops) × (c.loops ≤ 16)) }
        ensures connections { IfOk result (λ c. (1 ≤ c.connections) × (c.connections ≤ 65536)) }
    {
        Ok(Counts {
            fetchers: number(matches, "fetchers", 1, MAX_FETCHERS)? as usize,
            under_way: number(matches, "under-way", 1, MAX_UNDER_WAY)? as usize,
            workers: number(matches, "workers", 0, MAX_THREADS)? as usize,
            loops: number(matches, "loops", 1, MAX_THREADS)? as usize,
            connections: number(matches, "connections", 1, MAX_CONNECTIONS)? as usize,
        })
    }
}

// What memory has to stay within.
#[derive(Clone, Copy)]
struct Limits {
    cache_bytes: u64,
    cache_keys: Option<u64>,
    memory: usize,
}

// How long services may take, and when their addresses rest.
#[derive(Clone, Copy)]
struct Times {
    timeout: Duration,
    connect_timeout: Duration,
    wait: Duration,
    rest_after: u32,
    rest: Duration,
    slow: Option<Duration>,
}

impl Times {
    // What the words say, or the first that cannot be used.
    fn of<'w>(matches: &ArgMatches<'w>) -> Result<Times, BadWord<'w>>
        ensures timeout { IfOk result (λ t. IsTime t.timeout) }
        ensures connect { IfOk result (λ t. IsTime t.connect_timeout) }
        ensures wait { IfOk result (λ t. IsTime t.wait) }
        ensures after { IfOk result (λ t. (1 ≤ t.rest_after) × (t.rest_after ≤ 1000)) }
        ensures rest { IfOk result (λ t. IsTime t.rest) }
        ensures slow { IfOk result (λ t. IfSome t.slow IsTime) }
    {
        let timeout = time(matches, "timeout")?;
        Ok(Times {
            timeout,
            connect_timeout: time(matches, "connect-timeout")?,
            wait: time_or(matches, "wait", timeout)?,
            rest_after: number(matches, "rest-after", 1, MAX_REST_AFTER)? as u32,
            rest: time(matches, "rest")?,
            slow: time_if_given(matches, "slow")?,
        })
    }
}

impl Limits {
    // What the words say, or the first that cannot be used.
    fn of<'w>(matches: &ArgMatches<'w>) -> Result<Limits, BadWord<'w>>
        ensures cache_keys { IfOk result (λ l. IfSome l.cache_keys (λ n. (1 ≤ n) × (n ≤ 2 ^ 32))) }
    {
        Ok(Limits {
            cache_bytes: size(matches, "cache")?,
            cache_keys: number_if_given(matches, "cache-keys", 1, MAX_CACHE_KEYS)?,
            memory: size(matches, "memory")? as usize,
        })
    }
}

impl<'w> Options<'w> {
    /// What the words say, or the first that cannot be used.
    pub fn of(matches: &ArgMatches<'w>) -> Result<Options<'w>, BadWord<'w>>
        ensures fetchers { IfOk result (λ o. (1 ≤ o.fetchers) × (o.fetchers ≤ 4)) }
        ensures under_way { IfOk result (λ o. (1 ≤ o.under_way) × (o.under_way ≤ 1024)) }
        ensures workers { IfOk result (λ o. o.workers ≤ 16) }
        ensures loops { IfOk result (λ o. (1 ≤ o.loops) × (o.loops ≤ 16)) }
        ensures connections { IfOk result (λ o. (1 ≤ o.connections) × (o.connections ≤ 65536)) }
        ensures cache_keys { IfOk result (λ o. IfSome o.cache_keys (λ n. (1 ≤ n) × (n ≤ 2 ^ 32))) }
        ensures timeout { IfOk result (λ o. IsTime o.timeout × IsTime o.connect_timeout × IfSome o.slow IsTime) }
        ensures rests { IfOk result (λ o. IsTime o.wait × IsTime o.rest × (1 ≤ o.rest_after)) }
    {
        let listen = listen(matches)?;
        let counts = Counts::of(matches)?;
        let limits = Limits::of(matches)?;
        let times = Times::of(matches)?;
        let stats = stats(matches)?;
        let log = log(matches)?;
        Ok(Options {
            listen,
            check: matches.get_flag("check"),
            demo: matches.get_flag("demo"),
            table: matches.get_str("table"),
            fetchers: counts.fetchers,
            under_way: counts.under_way,
            workers: counts.workers,
            loops: counts.loops,
            connections: counts.connections,
            cache_bytes: limits.cache_bytes,
            cache_keys: limits.cache_keys,
            memory: limits.memory,
            timeout: times.timeout,
            connect_timeout: times.connect_timeout,
            wait: times.wait,
            rest_after: times.rest_after,
            rest: times.rest,
            connection_for_each: matches.get_flag("connection-for-each"),
            slow: times.slow,
            stats,
            log,
            access_log: matches.get_str("access-log"),
            until_eof: matches.get_flag("until-eof"),
            for_services: first_for_services(matches),
        })
    }
}

//! The serving: how it is done, and how it ends.
ghost use Rattle.std.specs.Prelude.{IfSome};
ghost use Rattle.peer_fetch.specs.Threads.{Allows};

use crate::access_log::{Access, AccessLog, access_of};
use crate::appends::Appends;
use crate::check::say_checked;
use crate::config::{ConfigFile, say_flag};
use crate::exit::{BAD_WORD, DONE, Exit, NO_SEED, OUT_OF_MEMORY, no_output, refuse};
use crate::facts::{facts_of, served_groups, served_services};
use crate::files::within_files;
use crate::group_caches::plans_of;
use crate::listen::listen;
use crate::log::Log;
use crate::page::{Page, page_of};
use crate::running::{Service, serve_watched};
use crate::said::{FilledBy, say_caches, say_listening, say_prefixes, say_serving, say_totals};
use crate::slow::slow_values_of;
use crate::source::{fetch_settings, source_of};
use crate::until_eof::stop_of;
use peer_access::RecordRings;
use peer_fetch::FetchPlan;
use peer_fill::{CachePlan, Caching, Report};
use peer_flags::Options;
use peer_groups::{FrontSource, fetched_of};
use peer_loop::{Fillers, ServerFault, Settings, Stop};
use peer_origin::Wires;
use peer_runtime::{Host, Limits};
use peer_source::Source;
use peer_stats::{Counters, ServerFacts};
use std::fs::Files;
use std::hash::RandomState;
use std::io::Read;
use std::net::TcpListener;
use std::random::RandomSource;

// Why a flag cannot stand beside a service, and why one cannot stand without.
const NO_WORKERS: &str =
    "is for a table and --demo alone: where a service is named, --fetchers says how many threads there are";

const FOR_SERVICES: &str = "is for services: name one, such as thumbs=http://10.0.0.7/thumbs/";

// Who fills what is asked for.
fn who_fills(options: &Options<'_>, has_services: bool) -> FilledBy {
    if has_services {
        FilledBy::Fetchers
    } else if options.workers > 0 {
        FilledBy::Workers
    } else {
        FilledBy::Loops
    }
}

// What a server has from outside.
#[derive(Clone, Copy)]
struct Outside<'a> {
    counters: &'a Counters,
    facts: ServerFacts<'a>,
    // How the caches of its groups are planned.
    plans: &'a [CachePlan],
    records: Option<&'a RecordRings>,
    stop: &'a Stop,
}

// How it is served.
fn settings_of<'a>(
    options: &Options<'_>,
    filled_by: FilledBy,
    seed: RandomState,
    outside: Outside<'a>,
) -> Settings<'a> {
    Settings {
        fillers: match filled_by {
            FilledBy::Fetchers => Fillers::Threads(options.fetchers),
            FilledBy::Workers => Fillers::Threads(options.workers),
            FilledBy::Loops => Fillers::Loops,
        },
        loops: options.loops,
        connections: options.connections,
        memory: options.memory,
        accepts: None,
        caching: Caching {
            plan: CachePlan::sharded(options.cache_bytes, options.cache_keys),
            own: outside.plans,
            seed,
        },
        limits: Limits::usual(),
        counters: outside.counters,
        records: outside.records,
        stop: outside.stop,
    }
}

// How the program ends behind its server, and says so.
fn end_of<H: AllocGlobal + Print + Eprint>(rt: &H, served: &Result<Report, ServerFault>) -> Exit {
    match served {
        Ok(report) => match say_totals(rt, report) {
            Ok(()) => DONE,
            Err(error) => no_output(rt, &error),
        },
        Err(fault) => refuse(rt, fault, OUT_OF_MEMORY),
    }
}

// What a server is opened with.
#[derive(Drop)]
struct Opened {
    seed: RandomState,
    listener: TcpListener,
    page: Option<Page>,
}

// The seed, the listener and the page, or says why there are none.
fn open<H: AllocGlobal + Eprint + RandomSource + Host>(
    rt: &H,
    options: &Options<'_>,
) -> Result<Opened, Exit> {
    let Ok(seed) = RandomState::new(rt) else {
        return Err(refuse(rt, &"no random seed", NO_SEED));
    };
    let listener = listen(rt, options)?;
    let page = page_of(rt, options, seed)?;
    Ok(Opened {
        seed,
        listener,
        page,
    })
}

// Serves this source, or says why not.
fn serve_source<
    S: Source + Send + Sync,
    H: AllocGlobal + Print + Eprint + Files + Appends + RandomSource + Host + Wires,
>(
    rt: &H,
    options: &Options<'_>,
    source: S,
    plan: Option<FetchPlan<'_>>,
    outside: Outside<'_>,
    access: Option<AccessLog<'_>>,
) -> Exit
    requires { IfSome plan (Allows H.carried (S.answers source)) }
{
    let opened = match open(rt, options) {
        Ok(opened) => opened,
        Err(exit) => {
            drop(source);
            return exit;
        }
    };
    let filled_by = who_fills(options, plan.is_some());
    let groups = source.group_count();
    say_serving(rt, groups, &opened.listener, options, filled_by);
    say_caches(rt, outside.facts.groups);
    if let Err(error) = say_listening(rt) {
        drop(opened);
        drop(source);
        return no_output(rt, &error);
    }
    let settings = settings_of(options, filled_by, opened.seed, outside);
    let Opened { listener, page, .. } = opened;
    let log = Log::new(options.log);
    let service = Service {
        source,
        listener,
        settings: &settings,
        facts: outside.facts,
        log: &log,
        plan,
    };
    let served = serve_watched(rt, service, page, access);
    end_of(rt, &served)
}

/// Says that a flag cannot stand where no service is named, or where one is, if there is such a flag.
pub fn check_flags<H: AllocGlobal + Eprint>(
    rt: &H,
    options: &Options<'_>,
    has_services: bool,
    file: Option<ConfigFile<'_>>,
) -> Result<(), Exit> {
    if has_services && options.workers > 0 {
        say_flag(rt, file, "workers", &NO_WORKERS);
        return Err(BAD_WORD);
    }
    match options.for_services {
        Some(flag) if !has_services => {
            say_flag(rt, file, flag, &FOR_SERVICES);
            Err(BAD_WORD)
        }
        _ => Ok(()),
    }
}

/// Serves what is asked for, or says why not. Where it is only to be checked it says what would be served.
pub fn serve_asked<
    R: Read + Send + Drop + 'static,
    H: AllocGlobal
        + Input<Reader = R>
        + Print
        + Eprint
        + Files
        + Appends
        + RandomSource
        + Host
        + Wires,
>(rt: &H, options: &Options<'_>, words: &[&str], file: Option<ConfigFile<'_>>) -> Exit {
    let options = &within_files(rt, options, !words.is_empty());
    let source = match source_of(rt, options, words, file) {
        Ok(source) => source,
        Err(exit) => return exit,
    };
    if options.check {
        let exit = say_checked(rt, options, &source, words, file);
        drop(source);
        return exit;
    }
    let access = match access_of(rt, options, file) {
        Ok(access) => access,
        Err(exit) => {
            drop(source);
            return exit;
        }
    };
    serve(rt, options, source, words, file, access)
}

// The rings that loops find, and the log of their records, if there is one.
fn parts_of<'a>(access: Option<Access<'a>>) -> (Option<RecordRings>, Option<AccessLog<'a>>) {
    match access {
        Some(Access { rings, log }) => (Some(rings), Some(log)),
        None => (None, None),
    }
}

// Serves this source.
fn serve<
    R: Read + Send + Drop + 'static,
    H: AllocGlobal
        + Input<Reader = R>
        + Print
        + Eprint
        + Files
        + Appends
        + RandomSource
        + Host
        + Wires,
>(
    rt: &H,
    options: &Options<'_>,
    source: FrontSource<'_, H>,
    words: &[&str],
    file: Option<ConfigFile<'_>>,
    access: Option<Access<'_>>,
) -> Exit {
    let (rings, log) = parts_of(access);
    let has_services = !words.is_empty();
    let counters = Counters::new();
    let (Some(fetched), Ok(stop)) = (fetched_of(rt.alloc(), &source), stop_of(rt, options)) else {
        return refuse(rt, &"out of memory, threads or descriptors", OUT_OF_MEMORY);
    };
    let Some(groups) = served_groups(rt.alloc(), &source, words, options, file) else {
        return refuse(rt, &"out of memory", OUT_OF_MEMORY);
    };
    let slow = slow_values_of(rt.alloc(), options);
    let plan = if has_services {
        let fetch = fetch_settings(options);
        let plan = FetchPlan {
            slow: slow.as_ref(),
            ..fetched.plan(fetch, options.under_way, &counters)
        };
        say_prefixes(rt, words, plan.endpoints.each);
        Some(plan)
    } else {
        None
    };
    let plans = plans_of(rt.alloc(), groups.as_slice());
    let (Ok(plans), Some(services)) = (plans, served_services(rt.alloc(), &plan)) else {
        return refuse(rt, &"out of memory", OUT_OF_MEMORY);
    };
    let outside = Outside {
        counters: &counters,
        facts: facts_of(options, groups.as_slice(), services.as_slice()),
        plans: plans.as_slice(),
        records: rings.as_ref(),
        stop: &stop,
    };
    serve_source(rt, options, source, plan, outside, log)
}

//! The page that Prometheus reads, in its text format 0.0.4.
ghost use Rattle.std.specs.Prelude.{◌≡◌, ◌++◌, codes, IfOk, OnOk};
ghost use Rattle.peer_stats.specs.Families.{counter_text, family_text, gauge_text};
ghost use Rattle.peer_stats.specs.Groups.{groups_text};
ghost use Rattle.peer_stats.specs.Labels.{label_text};
ghost use Rattle.peer_stats.specs.Latencies.{latencies_text};
ghost use Rattle.peer_stats.specs.Pages.{bounds_text, build_text, closes_text, connections_text, counts_text, failures_text};
ghost use Rattle.peer_stats.specs.Pages.{fillers_text, held_text, loops_text, page_text, process_text, process_times_text, queued};
ghost use Rattle.peer_stats.specs.Services.{services_text};
ghost use Rattle.peer_stats.specs.Pages.{queued_text, ready_text, replies_text, some_process_text, traffic_text};

use crate::counts::{
    AcceptCounts, CloseCounts, Counts, FailureCounts, FillerCounts, GroupCounts, LoopCounts,
    ReplyCounts, TrafficCounts,
};
use crate::family::{put_bound, put_counter, put_family, put_gauge, put_hundredths, put_rows};
use crate::groups::put_groups;
use crate::label::put_label;
use crate::latencies::put_latencies;
use crate::numbers::{Build, Numbers, ProcessCounts, ServerBounds};
use crate::service_counts::ServiceCounts;
use crate::services::put_services;
use crate::times::LoopTurns;
use std::alloc::{AllocError, Global};

// Appends what loops have counted.
fn put_loops(page: &mut Vec<u8>, counts: &LoopCounts) -> Result<(), AllocError>
    ensures { OnOk result (page.new.items ≡ page.old.items ++ loops_text counts.now) }
{
    put_counter(
        page,
        b"peer_front_asked_total",
        counts.asked,
        b"Values asked for.",
    )?;
    put_counter(
        page,
        b"peer_front_hits_total",
        counts.hits,
        b"Asks that a cache answered.",
    )?;
    put_counter(
        page,
        b"peer_front_led_total",
        counts.led,
        b"Asks that began a flight.",
    )?;
    put_counter(
        page,
        b"peer_front_joined_total",
        counts.joined,
        b"Asks that joined a flight under way.",
    )?;
    put_counter(
        page,
        b"peer_front_strangers_total",
        counts.strangers,
        b"Fills of another key than was asked for.",
    )?;
    Ok(())
}

// Appends what fillers have counted.
fn put_fillers(page: &mut Vec<u8>, counts: &FillerCounts) -> Result<(), AllocError>
    ensures { OnOk result (page.new.items ≡ page.old.items ++ fillers_text counts.now) }
{
    put_counter(
        page,
        b"peer_front_calls_total",
        counts.calls,
        b"Flights that were taken for a call of the source.",
    )?;
    put_counter(
        page,
        b"peer_front_rehits_total",
        counts.rehits,
        b"Flights whose value a cache had by then.",
    )?;
    Ok(())
}

// Appends connections: those that are open, and what the thread that accepts has counted.
fn put_connections(
    page: &mut Vec<u8>,
    connected: u64,
    counts: &AcceptCounts,
) -> Result<(), AllocError>
    ensures { OnOk result (page.new.items ≡ page.old.items ++ connections_text connected counts.now) }
{
    put_gauge(
        page,
        b"peer_front_connections",
        connected,
        b"Connections that are open.",
    )?;
    put_counter(
        page,
        b"peer_front_connections_accepted_total",
        counts.accepted,
        b"Connections accepted.",
    )?;
    put_counter(
        page,
        b"peer_front_accept_failures_total",
        counts.failed,
        b"Accepts that failed.",
    )?;
    Ok(())
}

// Appends the bytes of clients.
fn put_traffic(page: &mut Vec<u8>, counts: &TrafficCounts) -> Result<(), AllocError>
    ensures { OnOk result (page.new.items ≡ page.old.items ++ traffic_text counts.now) }
{
    put_counter(
        page,
        b"peer_front_received_bytes_total",
        counts.received,
        b"Bytes that clients sent.",
    )?;
    put_counter(
        page,
        b"peer_front_sent_bytes_total",
        counts.sent,
        b"Bytes that clients took.",
    )?;
    Ok(())
}

// Appends the connections that ended, by why.
fn put_closes(page: &mut Vec<u8>, counts: &CloseCounts) -> Result<(), AllocError>
    ensures { OnOk result (page.new.items ≡ page.old.items ++ closes_text counts.now) }
{
    put_family(
        page,
        b"peer_front_connections_closed_total",
        b"counter",
        b"Connections that ended, by why: client, reply, silent, slow, crowded, memory, end.",
    )?;
    put_rows(
        page,
        b"peer_front_connections_closed_total",
        &[
            (b"reason=\"client\"", counts.client),
            (b"reason=\"reply\"", counts.reply),
            (b"reason=\"silent\"", counts.silent),
            (b"reason=\"slow\"", counts.slow),
            (b"reason=\"crowded\"", counts.crowded),
            (b"reason=\"memory\"", counts.memory),
            (b"reason=\"end\"", counts.end),
        ],
    )?;
    Ok(())
}

// Appends the replies, by their status codes.
fn put_replies(page: &mut Vec<u8>, counts: &ReplyCounts) -> Result<(), AllocError>
    ensures { OnOk result (page.new.items ≡ page.old.items ++ replies_text counts.now) }
{
    put_family(
        page,
        b"peer_front_replies_total",
        b"counter",
        b"Replies by their status code.",
    )?;
    put_rows(
        page,
        b"peer_front_replies_total",
        &[
            (b"code=\"200\"", counts.ok),
            (b"code=\"400\"", counts.bad_request),
            (b"code=\"404\"", counts.not_found),
            (b"code=\"405\"", counts.not_allowed),
            (b"code=\"413\"", counts.content_too_large),
            (b"code=\"431\"", counts.head_too_large),
            (b"code=\"500\"", counts.failed),
            (b"code=\"501\"", counts.not_implemented),
        ],
    )?;
    put_counter(
        page,
        b"peer_front_unknown_groups_total",
        counts.unknown_groups,
        b"Requests for a group that is not served here.",
    )?;
    Ok(())
}

// Appends the failures of origins.
fn put_failures(page: &mut Vec<u8>, counts: &FailureCounts) -> Result<(), AllocError>
    ensures { OnOk result (page.new.items ≡ page.old.items ++ failures_text counts.now) }
{
    put_family(
        page,
        b"peer_front_origin_failures_total",
        b"counter",
        b"Calls for which a service gave no value.",
    )?;
    put_rows(
        page,
        b"peer_front_origin_failures_total",
        &[
            (b"kind=\"no_such_key\"", counts.no_such_key),
            (b"kind=\"status\"", counts.status),
            (b"kind=\"unreached\"", counts.unreached),
            (b"kind=\"late\"", counts.late),
            (b"kind=\"lost\"", counts.lost),
            (b"kind=\"malformed\"", counts.malformed),
            (b"kind=\"too_long\"", counts.too_long),
            (b"kind=\"memory\"", counts.memory),
        ],
    )?;
    Ok(())
}

// Appends how much the server may have at one moment.
fn put_bounds(page: &mut Vec<u8>, bounds: &ServerBounds) -> Result<(), AllocError>
    ensures { OnOk result (page.new.items ≡ page.old.items ++ bounds_text bounds.now) }
{
    put_gauge(
        page,
        b"peer_front_connections_limit",
        bounds.connections,
        b"Connections that may be open.",
    )?;
    put_gauge(
        page,
        b"peer_front_under_way_limit",
        bounds.under_way,
        b"Values that may be under way, on all fetchers together.",
    )?;
    put_gauge(
        page,
        b"peer_front_untaken_limit_bytes",
        bounds.untaken_bytes,
        b"Bytes that clients may have that they have not taken.",
    )?;
    Ok(())
}

// The keys that were led and that nobody has taken yet.
fn queued(counts: &Counts) -> u64
    ensures { result ≡ queued counts.now }
{
    counts
        .loops
        .led
        .saturating_sub(counts.fillers.calls)
        .saturating_sub(counts.fillers.rehits)
}

// Appends how many they are.
fn put_queued(page: &mut Vec<u8>, counts: &Counts) -> Result<(), AllocError>
    ensures { OnOk result (page.new.items ≡ page.old.items ++ queued_text counts.now) }
{
    put_gauge(
        page,
        b"peer_front_jobs_queued",
        queued(counts),
        b"Keys that were led and that nobody has taken yet.",
    )
}

// Appends whether clients are served.
fn put_ready(page: &mut Vec<u8>, is_ready: bool) -> Result<(), AllocError>
    ensures { OnOk result (page.new.items ≡ page.old.items ++ ready_text is_ready) }
{
    let help = b"Whether /readyz is answered by 200.";
    if is_ready {
        put_gauge(page, b"peer_front_ready", 1, help)
    } else {
        put_gauge(page, b"peer_front_ready", 0, help)
    }
}

// Appends what the server has at the moment.
fn put_held(page: &mut Vec<u8>, numbers: &Numbers) -> Result<(), AllocError>
    ensures { OnOk result (page.new.items ≡ page.old.items ++ held_text numbers.now) }
{
    put_queued(page, &numbers.counts)?;
    put_gauge(
        page,
        b"peer_front_untaken_bytes",
        numbers.counts.untaken_bytes,
        b"Bytes that clients have not taken.",
    )?;
    put_gauge(
        page,
        b"peer_front_cache_bytes",
        numbers.counts.cache_bytes,
        b"Bytes in all caches: keys, values and what holds them.",
    )?;
    put_ready(page, numbers.is_ready)?;
    put_gauge(
        page,
        b"peer_front_uptime_seconds",
        numbers.seconds,
        b"Seconds since the start.",
    )?;
    Ok(())
}

// Appends how long the process has run, of its processors and since when.
fn put_process_times(page: &mut Vec<u8>, counts: &ProcessCounts) -> Result<(), AllocError>
    ensures { OnOk result (page.new.items ≡ page.old.items ++ process_times_text counts.now) }
{
    put_family(
        page,
        b"process_cpu_seconds_total",
        b"counter",
        b"Seconds of processors that the process took.",
    )?;
    page.extend_from_slice(b"process_cpu_seconds_total ")?;
    put_hundredths(page, counts.cpu_hundredths)?;
    put_family(
        page,
        b"process_start_time_seconds",
        b"gauge",
        b"When the process was started, in seconds since 1970.",
    )?;
    page.extend_from_slice(b"process_start_time_seconds ")?;
    put_hundredths(page, counts.start_hundredths)?;
    Ok(())
}

// Appends what the system tells of the process.
fn put_process(page: &mut Vec<u8>, counts: &ProcessCounts) -> Result<(), AllocError>
    ensures { OnOk result (page.new.items ≡ page.old.items ++ process_text counts.now) }
{
    put_process_times(page, counts)?;
    put_gauge(
        page,
        b"process_resident_memory_bytes",
        counts.resident_bytes,
        b"Bytes of memory that the process has.",
    )?;
    put_gauge(
        page,
        b"process_virtual_memory_bytes",
        counts.virtual_bytes,
        b"Bytes of addresses that the process has.",
    )?;
    put_gauge(
        page,
        b"process_threads",
        counts.threads,
        b"Threads of the process.",
    )?;
    put_gauge(
        page,
        b"process_open_fds",
        counts.open_files,
        b"Files that the process has open.",
    )?;
    put_family(
        page,
        b"process_max_fds",
        b"gauge",
        b"Files that the process may open; +Inf without such a limit.",
    )?;
    page.extend_from_slice(b"process_max_fds ")?;
    put_bound(page, counts.most_files)?;
    Ok(())
}

// Appends the same, if the system tells it.
fn put_some_process(page: &mut Vec<u8>, counts: &Option<ProcessCounts>) -> Result<(), AllocError>
    ensures { OnOk result (page.new.items ≡ page.old.items ++ some_process_text counts.now) }
{
    match counts {
        Some(counts) => put_process(page, counts),
        None => Ok(()),
    }
}

// Appends the version of the program, and the logic of its toolchain.
fn put_build(page: &mut Vec<u8>, build: Build<'_>) -> Result<(), AllocError>
    ensures { OnOk result (page.new.items ≡ page.old.items ++ build_text build.entry) }
{
    put_family(
        page,
        b"peer_front_build_info",
        b"gauge",
        b"Version of the program, and the logic of the toolchain that it is proved with; always 1.",
    )?;
    page.extend_from_slice(b"peer_front_build_info{version=\"")?;
    put_label(page, build.version)?;
    page.extend_from_slice(b"\",toolchain=\"")?;
    put_label(page, build.toolchain)?;
    page.extend_from_slice(b"\"} 1\n")?;
    Ok(())
}

// Appends what threads have counted.
fn put_counts(page: &mut Vec<u8>, counts: &Counts) -> Result<(), AllocError>
    ensures { OnOk result (page.new.items ≡ page.old.items ++ counts_text counts.now) }
{
    put_loops(page, &counts.loops)?;
    put_fillers(page, &counts.fillers)?;
    put_connections(page, counts.loops.connections, &counts.accepts)?;
    put_traffic(page, &counts.traffic)?;
    put_closes(page, &counts.closes)?;
    put_replies(page, &counts.replies)?;
    put_failures(page, &counts.failures)?;
    put_counter(
        page,
        b"peer_front_access_log_dropped_total",
        counts.log_dropped,
        b"Replies that have no line in the access log.",
    )?;
    Ok(())
}

/// The page with these numbers, those of the groups and of the services, and how long the turns of the loops took.
pub fn metrics_page(
    alloc: Global,
    numbers: &Numbers,
    groups: &[GroupCounts<'_>],
    turns: &[LoopTurns],
    services: &[ServiceCounts<'_>],
    build: Build<'_>,
) -> Result<Vec<u8>, AllocError>
    ensures { IfOk result (λ page. page.items ≡ page_text numbers.now groups.now turns.now services.now build.entry) }
{
    let mut page = Vec::new(alloc);
    put_build(&mut page, build)?;
    put_counts(&mut page, &numbers.counts)?;
    put_groups(&mut page, groups)?;
    put_latencies(&mut page, &numbers.counts.queued, groups, turns)?;
    put_services(&mut page, services)?;
    put_bounds(&mut page, &numbers.bounds)?;
    put_held(&mut page, numbers)?;
    put_some_process(&mut page, &numbers.process)?;
    Ok(page)
}

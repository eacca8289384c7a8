//! The program: one call, of which `bench/refused.py` has growths refused, and in one word what it did.
//!
//! It prints `refused`, where the call told that memory was refused and everything was as before; `answered`, where it
//! gave its usual answer; `prepared`, where memory was refused before the call; or `WRONG` with what was wrong. It stands
//! on the crates whose calls it makes. It promises nothing: it is evidence for what they promise.
#![tactic(auto)]

mod connections;
mod flights;
mod heads;
mod lent;
mod pools;
mod seen;
mod servers;
mod sources;
mod tables;
mod talking;
mod talks;
mod uses;
mod views;
mod window;
mod without;

use crate::connections::Alone;
use crate::pools::Before;
use crate::seen::Seen;
use crate::servers::Which;
use crate::sources::{ECHO, FILL, SQUARE};
use crate::talks::Talk;
use crate::uses::{Call, over_pool};
use crate::views::Set;
use crate::without::Without;
use peer_source::GroupId;
use std::alloc::Global;
use std::env;
use std::process::ExitCode;
use std::sync::Wait;
use std::thread::Threads;

fn main(rt: HostRuntime) -> ExitCode {
    let alloc = rt.alloc();
    let seen = match name_of(&rt) {
        None => None,
        Some(name) => match name.as_str() {
            "peer_server" => servers::server(&rt, alloc, Which::Any),
            "peer_server_first" => servers::server(&rt, alloc, Which::First),
            name => see(&rt, alloc, name),
        },
    };
    let printed = match seen.unwrap_or(Seen::Prepared) {
        Seen::Refused => println!(rt; "refused"),
        Seen::Answered => println!(rt; "answered"),
        Seen::Prepared => println!(rt; "prepared"),
        Seen::Wrong(what) => println!(rt; "WRONG: {what}"),
    };
    ExitCode::from(if printed.is_ok() { 0 } else { 1 })
}

// The name of the call, or none where it cannot be had.
fn name_of(rt: &HostRuntime) -> Option<String> {
    let mut args = env::args(rt).ok()?;
    let _program = args.next();
    args.next()
}

/// The calls over a pool with one worker and one connection.
const OVER_POOL: [(&str, Call); 14] = [
    ("ask_led", Call::Ask(Before::Nothing)),
    ("ask_joined", Call::Ask(Before::Ask)),
    ("ask_hit", Call::Ask(Before::Fill)),
    ("run_worker", Call::Work),
    ("refill", Call::Refill),
    ("serve_connection", Call::Connection),
    ("talk_whole", Call::Talk(Talk::Whole)),
    ("talk_pieces", Call::Talk(Talk::Pieces)),
    ("talk_many", Call::Talk(Talk::Many)),
    ("talk_kept", Call::Talk(Talk::Kept)),
    ("talk_faults", Call::Talk(Talk::Faults)),
    ("talk_escaped", Call::Talk(Talk::Escaped)),
    ("talk_long", Call::Talk(Talk::Long)),
    ("talk_closing", Call::Talk(Talk::Closing)),
];

/// A call of one value, and those that take no memory.
#[derive(Clone, Copy)]
enum One {
    CopyOf,
    Share,
    Slice,
    SliceFrom,
    ToVec,
    ToText,
    AllocSink(Set),
    ViewSink(Set),
    /// A fill of this group and key, which has this value or error.
    Fill(GroupId, &'static [u8], &'static [u8]),
    FillShare,
    CacheNew,
    CacheGet,
    CacheAdd,
    CacheGrows,
    CacheBounded,
    CacheFind,
    CacheMakeRoom,
    /// A want of a place that is open, or is not.
    Want(bool),
    WantMany,
    FlightShare,
    HeadBuf,
    Locate,
    WishOf,
    WishOfNoGroup,
    Lane,
    ReadTable,
    TableFound,
    TableMissing,
    Serve(Alone),
    Without(Without),
}

// A key of more bytes than a view holds itself.
const LONG_KEY: &[u8] = b"a key of more letters than a view holds itself, as a path has them";

const ONES: [(&str, One); 46] = [
    ("copy_of", One::CopyOf),
    ("share", One::Share),
    ("slice", One::Slice),
    ("slice_from", One::SliceFrom),
    ("to_vec", One::ToVec),
    ("to_text", One::ToText),
    ("alloc_sink_bytes", One::AllocSink(Set::Bytes)),
    ("alloc_sink_str", One::AllocSink(Set::Text)),
    ("alloc_sink_view", One::AllocSink(Set::View)),
    ("view_sink_bytes", One::ViewSink(Set::Bytes)),
    ("view_sink_str", One::ViewSink(Set::Text)),
    ("view_sink_view", One::ViewSink(Set::View)),
    ("fill_found", One::Fill(ECHO, LONG_KEY, LONG_KEY)),
    ("fill_failed", One::Fill(SQUARE, b"x", b"not a number")),
    ("fill_letters", One::Fill(FILL, b"60", &[b'x'; 60])),
    ("fill_share", One::FillShare),
    ("cache_new", One::CacheNew),
    ("cache_get", One::CacheGet),
    ("cache_add", One::CacheAdd),
    ("cache_grows", One::CacheGrows),
    ("cache_bounded", One::CacheBounded),
    ("cache_find", One::CacheFind),
    ("cache_make_room", One::CacheMakeRoom),
    ("want_led", One::Want(false)),
    ("want_joined", One::Want(true)),
    ("want_many", One::WantMany),
    ("flight_share", One::FlightShare),
    ("head_buf", One::HeadBuf),
    ("locate", One::Locate),
    ("wish_of", One::WishOf),
    ("wish_of_no_group", One::WishOfNoGroup),
    ("lane", One::Lane),
    ("read_table", One::ReadTable),
    ("table_found", One::TableFound),
    ("table_missing", One::TableMissing),
    ("serve_serial", One::Serve(Alone::Serial)),
    ("serve_functional", One::Serve(Alone::Functional)),
    ("without_views", One::Without(Without::Views)),
    ("without_sinks", One::Without(Without::Sinks)),
    ("without_devices", One::Without(Without::Devices)),
    ("without_sources", One::Without(Without::Sources)),
    ("without_caches", One::Without(Without::Caches)),
    ("without_heads", One::Without(Without::Heads)),
    ("without_replies", One::Without(Without::Replies)),
    ("without_flights", One::Without(Without::Flights)),
    ("without_lane", One::Without(Without::Lanes)),
];

// The call over a pool that has this name.
fn call_of(name: &str) -> Option<Call> {
    for (known, call) in &OVER_POOL {
        if *known == name {
            return Some(*call);
        }
    }
    None
}

// The call of one value that has this name.
fn one_of(name: &str) -> Option<One> {
    for (known, one) in &ONES {
        if *known == name {
            return Some(*one);
        }
    }
    None
}

// What the call of this name does, or none where memory is refused before it.
fn see<H: Threads + Wait + Sync>(rt: &H, alloc: Global, name: &str) -> Option<Seen> {
    if let Some(call) = call_of(name) {
        return over_pool(rt, alloc, call);
    }
    if let Some(one) = one_of(name) {
        return see_one(alloc, one);
    }
    match name {
        "pool_open" => pools::open_one(rt, alloc),
        "without_pool" => without::pool(rt, alloc),
        _ => Some(Seen::Wrong("no such call")),
    }
}

// The same for the calls of one value.
fn see_one(alloc: Global, one: One) -> Option<Seen> {
    match one {
        One::CopyOf => views::copy_of(alloc),
        One::Share => views::share(alloc),
        One::Slice => views::slice(alloc),
        One::SliceFrom => views::slice_from(alloc),
        One::ToVec => views::to_vec(alloc),
        One::ToText => views::to_text(alloc),
        One::AllocSink(set) => views::alloc_sink(alloc, set),
        One::ViewSink(set) => views::view_sink(alloc, set),
        One::Fill(group, key, wanted) => sources::run(alloc, group, key, wanted),
        One::FillShare => sources::share(alloc),
        One::CacheNew => sources::cache_new(alloc),
        One::CacheGet => sources::cache_get(alloc),
        One::CacheAdd => sources::cache_add(alloc),
        One::CacheGrows => sources::cache_grows(alloc),
        One::CacheBounded => sources::cache_bounded(alloc),
        One::CacheFind => sources::cache_find(alloc),
        One::CacheMakeRoom => sources::cache_make_room(alloc),
        One::Want(open) => flights::want_one(alloc, open),
        One::WantMany => flights::want_many(alloc),
        One::FlightShare => flights::flight_share(alloc),
        One::HeadBuf => heads::head_buf(alloc),
        One::Locate => heads::locate_escaped(alloc),
        One::WishOf => heads::wish_escaped(alloc),
        One::WishOfNoGroup => heads::wish_no_group(alloc),
        One::Lane => heads::lane_new(alloc),
        One::ReadTable => tables::read_table(alloc),
        One::TableFound => tables::found(alloc),
        One::TableMissing => tables::missing(alloc),
        One::Serve(call) => connections::in_one_thread(alloc, call),
        One::Without(calls) => without::see(alloc, calls),
    }
}

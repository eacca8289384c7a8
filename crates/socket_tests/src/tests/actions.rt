//! What clients of a server do, by one name each.

use super::asking::{ask_each, each_asks, six_ask};
use super::grouped::ask_groups;
use super::limited::ask_beside_greedy;
use super::lingering::is_given_up_well;
use super::long_values::receives_all;
use super::loops::{is_dealt, is_published};
use super::meeting::ask_both;
use super::memory::is_narrowed;
use super::pipelining::is_asked_on;
use super::servers::Outside;
use super::serving::{ask_behind, ask_in_turn, ask_twice, reset_thrice};
use super::stalls::are_answered;
use super::stopping::{have_their_replies, is_closed_well, stop_beside};
use super::visits::{Visit, all_find};
use super::waiting::{is_answered_each_time, leaves_its_place, others_have_it};
use std::net::{Net, SocketAddr, TcpListener, TcpStream};
use std::sync::Wait;
use std::time::Clock;

/// What the clients of a server do, and what they are to see: that stands at the function of each.
#[derive(Clone, Copy)]
pub enum Actions<'v> {
    Nothing,
    Visits(&'v [Visit]),
    AskTwice,
    AskBehind,
    AskInTurn,
    ResetThrice,
    AskEach(u32),
    SixAsk(u32),
    EachAsks(u32, u32),
    AskGroups,
    AskBoth(bool),
    Published,
    Dealt,
    LongValues,
    BesideGreedy(u32),
    GivenUpWell,
    AnsweredLate,
    ResetsBetween,
    LeavesItsPlace,
    StandsStill,
    StopBeside(bool),
    ClosedWell(usize),
    AskBeforeStop,
    Narrowed,
    AskedOn,
}

/// Whether the clients of a server see what they are to see.
pub fn is_seen<H: AllocGlobal + Net<Listener = TcpListener, Stream = TcpStream> + Wait + Clock>(
    rt: &H,
    address: SocketAddr,
    actions: Actions<'_>,
    outside: &Outside,
) -> bool {
    let calls = &outside.calls;
    match actions {
        Actions::Nothing => true,
        Actions::Visits(visits) => all_find(rt, address, visits),
        Actions::AskTwice => ask_twice(rt, address),
        Actions::AskBehind => ask_behind(rt, address),
        Actions::AskInTurn => ask_in_turn(rt, address),
        Actions::ResetThrice => reset_thrice(rt, address),
        Actions::AskEach(count) => ask_each(rt, address, count),
        Actions::SixAsk(apart) => six_ask(rt, address, apart),
        Actions::EachAsks(count, keys) => each_asks(rt, address, count, keys, calls),
        Actions::AskGroups => ask_groups(rt, address),
        Actions::AskBoth(later_first) => ask_both(rt, address, later_first, calls),
        Actions::Published => is_published(rt, address, outside),
        Actions::Dealt => is_dealt(rt, address, outside),
        Actions::LongValues => receives_all(rt, address),
        Actions::BesideGreedy(count) => ask_beside_greedy(rt, address, count),
        Actions::GivenUpWell => is_given_up_well(rt, address, calls),
        Actions::AnsweredLate => is_answered_each_time(rt, address, calls),
        Actions::ResetsBetween => others_have_it(rt, address, outside),
        Actions::LeavesItsPlace => leaves_its_place(rt, address, calls),
        Actions::StandsStill => are_answered(rt, address, calls),
        Actions::StopBeside(leaves) => stop_beside(rt, address, leaves, outside),
        Actions::ClosedWell(row) => is_closed_well(rt, address, row, outside),
        Actions::AskBeforeStop => have_their_replies(rt, address, outside),
        Actions::Narrowed => is_narrowed(rt, address, calls),
        Actions::AskedOn => is_asked_on(rt, address, outside),
    }
}

//! What the system and memory give a server before its threads are started. Where they refuse something, no thread is started.
ghost use Rattle.std.specs.Prelude.{◌≡◌, IfSome};

use crate::listening::Listening;
use crate::settings::Orders;
use crate::work::{FillerParts, ThreadParts};
use peer_clients::LoopParts;
use peer_fetch::FetchParts;
use peer_runtime::PollWakers;
use peer_site::{Mailboxes, Occupancy};
use std::alloc::Global;
use std::net::{Net, TcpListener};

/// What the threads of a server share.
#[derive(Drop)]
pub struct Shared {
    pub mailboxes: Mailboxes,
    pub wakers: PollWakers,
    pub occupancy: Occupancy,
}

/// What the system and memory give a server.
#[derive(Drop)]
pub struct ServerParts<'a> {
    pub threads: ThreadParts<'a>,
    pub shared: Shared,
    pub listening: Listening,
}

// Adds what a loop needs beside its seats, and its mailbox. None where memory or a descriptor was refused.
fn open_loop<H: Net>(
    rt: &H,
    alloc: Global,
    loops: &mut Vec<LoopParts>,
    mailboxes: &mut Mailboxes,
) -> Option<()> {
    let (parts, mailbox) = LoopParts::new(rt, alloc)?;
    mailboxes.each.push(mailbox).ok()?;
    loops.push(parts).ok()
}

// The same for so many loops.
fn open_loops<H: Net>(
    rt: &H,
    alloc: Global,
    count: usize,
    loops: &mut Vec<LoopParts>,
    mailboxes: &mut Mailboxes,
) -> Option<()> {
    for _ in 0..count {
        open_loop(rt, alloc, loops, mailboxes)?;
    }
    Some(())
}

// Adds what threads need that fetch as these orders say, and what wakes them. None where memory or the system refuses it.
fn open_fetchers<H: Net>(
    rt: &H,
    alloc: Global,
    orders: Orders<'_>,
    fetchers: &mut Vec<FetchParts>,
    wakers: &mut PollWakers,
) -> Option<()> {
    let Some((count, plan)) = orders.fetchers() else {
        return Some(());
    };
    for _ in 0..count {
        let (parts, waker) = FetchParts::new(rt, alloc, &plan)?;
        wakers.each.push(waker).ok()?;
        fetchers.push(parts).ok()?;
    }
    Some(())
}

// Adds what all threads need that serve as these orders say, and has the server end by its stop. None where memory or the
// system refuses it, or where another server is to be ended so.
fn open_threads<H: Net>(
    rt: &H,
    alloc: Global,
    orders: Orders<'_>,
    parts: &mut ServerParts<'_>,
) -> Option<()>
    ensures { parts.new.threads.fillers.plan ≡ parts.old.threads.fillers.plan }
{
    let mailboxes = &mut parts.shared.mailboxes;
    open_loops(
        rt,
        alloc,
        orders.settings.loops,
        &mut parts.threads.loops,
        mailboxes,
    )?;
    let fetchers = &mut parts.threads.fillers.fetchers;
    open_fetchers(rt, alloc, orders, fetchers, &mut parts.shared.wakers)?;
    orders.settings.stop.watch(&parts.listening.poll)
}

// What a server needs on this listener whose threads have nothing yet. None where memory was refused.
fn parts_without_threads<'a>(
    alloc: Global,
    listening: Listening,
    orders: Orders<'a>,
) -> Option<ServerParts<'a>>
    ensures { IfSome result (λ parts. parts.threads.fillers.plan ≡ orders.entry.plan) }
{
    let settings = orders.settings;
    let occupancy = Occupancy::new(&listening.poll, settings.connections, settings.memory)?;
    let fillers = FillerParts {
        fillers: settings.fillers,
        fetchers: Vec::new(alloc),
        plan: orders.plan,
    };
    Some(ServerParts {
        threads: ThreadParts {
            loops: Vec::new(alloc),
            fillers,
        },
        shared: Shared {
            mailboxes: Mailboxes {
                each: Vec::new(alloc),
            },
            wakers: PollWakers::new(Vec::new(alloc)),
            occupancy,
        },
        listening,
    })
}

/// What a server needs that serves as these orders say. None where memory or a descriptor was refused, or where the stop is
/// another server's.
pub fn open_parts<'a, H: Net>(
    rt: &H,
    alloc: Global,
    listener: TcpListener,
    orders: Orders<'a>,
) -> Option<ServerParts<'a>>
    ensures { IfSome result (λ parts. parts.threads.fillers.plan ≡ orders.entry.plan) }
{
    let listening = Listening::new(rt, alloc, listener)?;
    let mut parts = parts_without_threads(alloc, listening, orders)?;
    open_threads(rt, alloc, orders, &mut parts)?;
    Some(parts)
}

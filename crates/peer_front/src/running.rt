//! The server, and the threads beside it.
ghost use Rattle.std.specs.Prelude.{IfSome};
ghost use Rattle.peer_fetch.specs.Threads.{Allows};

use crate::access_log::AccessLog;
use crate::appends::Appends;
use crate::end::End;
use crate::failing::Watched;
use crate::log::Log;
use crate::names::{has_names, look_up_names};
use crate::page::Page;
use crate::troubles::tell_troubles;
use peer_fetch::FetchPlan;
use peer_fill::Report;
use peer_loop::{ServerFault, Settings, serve_fetching};
use peer_origin::Wires;
use peer_runtime::Host;
use peer_source::Source;
use peer_stats::ServerFacts;
use std::fs::Files;
use std::net::TcpListener;
use std::sync::Wait;
use std::thread;
use std::thread::Threads;

/// What is served, and how.
#[derive(Drop)]
pub struct Service<'a, S: Source> {
    pub source: S,
    pub listener: TcpListener,
    pub settings: &'a Settings<'a>,
    /// What it is, for its page.
    pub facts: ServerFacts<'a>,
    /// Where lines are said.
    pub log: &'a Log,
    /// What threads fetch, where they do.
    pub plan: Option<FetchPlan<'a>>,
}

// Serves, by fetches where there is a plan.
fn serve_planned<S: Source + Send + Sync, H: AllocGlobal + Host + Wires>(
    rt: &H,
    service: Service<'_, S>,
) -> Result<Report, ServerFault>
    requires { IfSome service.plan (Allows H.carried (S.answers service.source)) }
{
    let Service {
        source,
        listener,
        settings,
        plan,
        ..
    } = service;
    serve_fetching(rt, rt.alloc(), source, listener, settings, plan)
}

// Serves while this work is done in a thread of its own, and has the work end behind the server.
fn serve_beside<
    W: FnOnce() + Send,
    E: FnOnce(),
    F: FnOnce() -> Result<Report, ServerFault>,
    H: Threads + Wait + Sync,
>(rt: &H, work: W, end: E, serve: F) -> Result<Report, ServerFault>
    requires work { W.pre work }
    requires end { E.pre end }
    requires serve { F.pre serve }
{
    thread::scope(
        thread::scope_env(),
        rt,
        move |scope| -> Result<Report, ServerFault>
            requires work { W.pre work }
            requires end { E.pre end }
            requires serve { F.pre serve }
        {
            let Ok(working) = scope.spawn(work) else {
                return Err(ServerFault::Refused);
            };
            let report = serve();
            end();
            working.join(rt);
            report
        },
    )
}

// Serves in a thread of its own while this work is done here, which the server ends.
fn serve_apart<
    W: FnOnce(),
    F: FnOnce() -> Result<Report, ServerFault> + Send,
    H: Threads + Wait + Sync,
>(rt: &H, work: W, serve: F) -> Result<Report, ServerFault>
    requires work { W.pre work }
    requires serve { F.pre serve }
{
    thread::scope(
        thread::scope_env(),
        rt,
        move |scope| -> Result<Report, ServerFault>
            requires work { W.pre work }
            requires serve { F.pre serve }
        {
            let Ok(serving) = scope.spawn(serve) else {
                return Err(ServerFault::Refused);
            };
            work();
            serving.join(rt)
        },
    )
}

// Serves while the page is served, where one is asked for: here, since files can be read in this thread alone.
fn serve_paged<S: Source + Send + Sync, H: AllocGlobal + Files + Host + Wires>(
    rt: &H,
    service: Service<'_, S>,
    page: Option<Page>,
) -> Result<Report, ServerFault>
    requires { IfSome service.plan (Allows H.carried (S.answers service.source)) }
{
    let Some(Page { server, end }) = page else {
        return serve_planned(rt, service);
    };
    let end = &end;
    let (counters, facts) = (service.settings.counters, service.facts);
    serve_apart(
        rt,
        move || server.run(rt, counters, facts, end),
        move || -> Result<Report, ServerFault>
            requires { IfSome service.plan (Allows H.carried (S.answers service.source)) }
        {
            let report = serve_planned(rt, service);
            end.end();
            report
        },
    )
}

// Serves, and looks names of services up again where there are some.
fn serve_named<S: Source + Send + Sync, H: AllocGlobal + Eprint + Files + Host + Wires>(
    rt: &H,
    service: Service<'_, S>,
    page: Option<Page>,
) -> Result<Report, ServerFault>
    requires { IfSome service.plan (Allows H.carried (S.answers service.source)) }
{
    let endpoints = match &service.plan {
        Some(plan) if has_names(plan.endpoints.each) => plan.endpoints.each,
        _ => return serve_paged(rt, service, page),
    };
    let (log, services) = (service.log, service.settings.counters.services());
    let end = End::new();
    let end = &end;
    serve_beside(
        rt,
        move || look_up_names(rt, log, services, endpoints, end),
        move || end.tell(),
        move || -> Result<Report, ServerFault>
            requires { IfSome service.plan (Allows H.carried (S.answers service.source)) }
        { serve_paged(rt, service, page) },
    )
}

// Serves, and writes the access log, where there is one. It ends behind the loops, whose records it writes.
fn serve_recorded<
    S: Source + Send + Sync,
    H: AllocGlobal + Print + Eprint + Files + Appends + Host + Wires,
>(
    rt: &H,
    service: Service<'_, S>,
    page: Option<Page>,
    access: Option<AccessLog<'_>>,
) -> Result<Report, ServerFault>
    requires { IfSome service.plan (Allows H.carried (S.answers service.source)) }
{
    let Some(access) = access else {
        return serve_named(rt, service, page);
    };
    let Ok(bell) = access.bell() else {
        return Err(ServerFault::Refused);
    };
    let watched = watched_of(&service);
    let end = End::new();
    let end = &end;
    serve_beside(
        rt,
        move || access.run(rt, watched, end),
        move || {
            end.tell();
            bell.ring();
        },
        move || -> Result<Report, ServerFault>
            requires { IfSome service.plan (Allows H.carried (S.answers service.source)) }
        { serve_named(rt, service, page) },
    )
}

// What is looked at while it serves.
fn watched_of<'a, S: Source>(service: &Service<'a, S>) -> Watched<'a> {
    Watched {
        log: service.log,
        counters: service.settings.counters,
        facts: service.facts,
        plan: service.plan,
    }
}

/// Serves while troubles are told, the access log is written and the page is served, where these are asked for, and ends all behind
/// it. Where there is a plan, threads fetch by it.
pub fn serve_watched<
    S: Source + Send + Sync,
    H: AllocGlobal + Print + Eprint + Files + Appends + Host + Wires,
>(
    rt: &H,
    service: Service<'_, S>,
    page: Option<Page>,
    access: Option<AccessLog<'_>>,
) -> Result<Report, ServerFault>
    requires { IfSome service.plan (Allows H.carried (S.answers service.source)) }
{
    let end = End::new();
    let end = &end;
    let watched = watched_of(&service);
    serve_beside(
        rt,
        move || tell_troubles(rt, watched, end),
        move || end.tell(),
        move || -> Result<Report, ServerFault>
            requires { IfSome service.plan (Allows H.carried (S.answers service.source)) }
        { serve_recorded(rt, service, page, access) },
    )
}

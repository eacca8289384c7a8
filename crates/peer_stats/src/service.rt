//! The service behind the page.

use crate::answer::Answer;
use crate::counters::{Counters, LoopLooks, NO_LOOKS};
use crate::facts::ServerFacts;
use crate::numbers::{Numbers, ProcessCounts};
use crate::page::metrics_page;
use crate::state::ServerState;
use bytes::{BufMut, Bytes};
use http::{HeaderValue, Request, StatusCode, header};
use http_server::{Response, Service};
use std::alloc::{AllocError, Global};
use std::time::Duration;

/// Answers requests by what was counted.
#[derive(Drop)]
pub struct StatsService<'a> {
    pub alloc: Global,
    pub counters: &'a Counters,
    pub facts: ServerFacts<'a>,
    /// How long the server runs by now.
    pub uptime: Duration,
    /// What the system told of the process last.
    pub process: Option<ProcessCounts>,
    /// What looks at the loops have found.
    pub looks: LoopLooks,
    /// Whether a loop stands still.
    pub stands_still: bool,
}

impl<'a> StatsService<'a> {
    /// That of a server with these facts, which begins.
    pub fn new(alloc: Global, counters: &'a Counters, facts: ServerFacts<'a>) -> StatsService<'a> {
        StatsService {
            alloc,
            counters,
            facts,
            uptime: Duration::ZERO,
            process: None,
            looks: NO_LOOKS,
            stands_still: false,
        }
    }

    // How the server is.
    fn state(&self) -> ServerState {
        ServerState::of(self.counters.stage(), self.stands_still)
    }
}

// Fills the response with the page.
fn put_page(service: &StatsService<'_>, response: &mut Response) -> Result<(), AllocError> {
    let numbers = Numbers {
        counts: service.counters.read(),
        bounds: service.facts.bounds,
        process: service.process,
        is_ready: service.state().is_ready(),
        seconds: service.uptime.as_secs(),
    };
    let groups = service
        .counters
        .read_groups(service.alloc, service.facts.groups)?;
    let turns = service
        .counters
        .read_turns(service.alloc, service.facts.loops)?;
    let services = service
        .counters
        .read_services(service.alloc, service.facts.services)?;
    let page = metrics_page(
        service.alloc,
        &numbers,
        groups.as_slice(),
        turns.as_slice(),
        services.as_slice(),
        service.facts.build,
    )?;
    response.add_header(
        header::CONTENT_TYPE,
        HeaderValue::from_static("text/plain; version=0.0.4; charset=utf-8"),
    )?;
    response.body.put_slice(page.as_slice())
}

// Fills the response with a line.
fn put_line(status: StatusCode, line: &[u8], response: &mut Response) -> Result<(), AllocError> {
    response.status = status;
    response.add_header(header::CONTENT_TYPE, HeaderValue::from_static("text/plain"))?;
    response.body.put_slice(line)
}

// 200 where it is so, and else 503.
fn status_if(is_so: bool) -> StatusCode {
    if is_so {
        StatusCode::OK
    } else {
        StatusCode::SERVICE_UNAVAILABLE
    }
}

// Fills the response with whether clients are served.
fn put_ready(state: ServerState, response: &mut Response) -> Result<(), AllocError> {
    put_line(status_if(state.is_ready()), state.line(), response)
}

// Fills the response with whether no loop stands still.
fn put_health(state: ServerState, response: &mut Response) -> Result<(), AllocError> {
    let line = if state.is_healthy() {
        b"ok\n".as_slice()
    } else {
        state.line()
    };
    put_line(status_if(state.is_healthy()), line, response)
}

impl<'a> Service for StatsService<'a> {
    ghost answers = { λ old request response new. Unit {0} };

    fn call(
        &mut self,
        request: &Request<Bytes>,
        response: &mut Response,
    ) -> Result<(), AllocError> {
        let method = request.method().as_str().as_bytes();
        let path = request.uri().path().as_bytes();
        response.add_header(header::CONNECTION, HeaderValue::from_static("close"))?;
        match Answer::to(method, path) {
            Answer::Metrics => put_page(self, response),
            Answer::Health => put_health(self.state(), response),
            Answer::Ready => put_ready(self.state(), response),
            Answer::NotFound => put_line(StatusCode::NOT_FOUND, b"no such page\n", response),
            Answer::NotAllowed => {
                response.add_header(header::ALLOW, HeaderValue::from_static("GET, HEAD"))?;
                put_line(
                    StatusCode::METHOD_NOT_ALLOWED,
                    b"GET and HEAD are answered\n",
                    response,
                )
            }
        }
    }
}

//! An origin in a thread of the same process, with many connections at once.

use super::replies::{Reply, reply_to};
use std::alloc::Global;
use std::io::{ErrorKind, Read, Write};
use std::net::{TcpListener, TcpStream};
use std::sync::atomic::Ordering::SeqCst;
use std::sync::atomic::{AtomicBool, AtomicUsize};
use std::thread;
use std::time::{Clock, Duration};

// For how many looks of a millisecond at least an origin runs at most.
const LOOKS: u32 = 60_000;

// For how many milliseconds a reply waits that comes late.
const WHILE: u64 = 300;

/// What is told to an origin and what it tells.
#[derive(Drop)]
pub struct Told {
    /// It is to end.
    pub stopping: AtomicBool,
    /// How many requests came.
    pub requests: AtomicUsize,
    /// How many requests were open at most.
    pub open: AtomicUsize,
}

impl Told {
    /// Nothing was told.
    pub fn new() -> Told {
        Told {
            stopping: AtomicBool::new(false),
            requests: AtomicUsize::new(0),
            open: AtomicUsize::new(0),
        }
    }
}

// A connection of the origin.
#[derive(Drop)]
struct Caller {
    stream: Option<TcpStream>,
    request: Vec<u8>,
    is_first: bool,
}

// Takes in those who connect.
fn accept_all(alloc: Global, listener: &TcpListener, callers: &mut Vec<Caller>) {
    for _ in 0..2000 {
        let Ok((stream, _)) = listener.accept() else {
            return;
        };
        if stream.set_nonblocking(true).is_err() {
            return;
        }
        let caller = Caller {
            stream: Some(stream),
            request: Vec::new(alloc),
            is_first: true,
        };
        let _ = callers.push(caller);
    }
}

impl Caller {
    // Reads what came. Whether a request became whole by that.
    fn read(&mut self) -> bool {
        let Some(stream) = &self.stream else {
            return false;
        };
        let mut stream: &TcpStream = stream;
        let mut room = [0u8; 2048];
        match stream.read(&mut room) {
            Ok(0) => {
                self.stream = None;
                false
            }
            Ok(n) => self.request.extend_from_slice(&room[..n]).is_ok() && self.is_whole(),
            Err(error) => {
                if error.kind() != ErrorKind::WouldBlock {
                    self.stream = None;
                }
                false
            }
        }
    }

    // Whether its request is whole.
    fn is_whole(&self) -> bool {
        self.stream.is_some() && self.request.ends_with(b"\r\n\r\n")
    }

    // The key of its request, whose prefix is `/v/`.
    fn key(&self) -> &[u8] {
        let Some(rest) = self.request.strip_prefix(b"GET /v/") else {
            return b"";
        };
        match rest.iter().position(|byte| *byte == b' ') {
            Some(end) => &rest[..end],
            None => b"",
        }
    }

    // Sends a text.
    fn send(&mut self, text: &[u8]) {
        if let Some(stream) = &self.stream {
            let mut stream: &TcpStream = stream;
            let _ = stream.write_all(text);
        }
    }

    // Sends a text, and takes the next request.
    fn keep(&mut self, text: &[u8]) {
        self.send(text);
        self.request.clear();
        self.is_first = false;
    }

    // Replies, where its request is whole. Whether the origin is to end.
    fn reply<H: Clock>(&mut self, rt: &H, alloc: Global) -> bool {
        let Ok(reply) = reply_to(alloc, self.key(), self.is_first) else {
            return false;
        };
        match reply {
            Reply::Keep(text) => {
                self.keep(&text);
                false
            }
            Reply::KeepLate(text) => {
                thread::sleep(rt, Duration::from_millis(WHILE));
                self.keep(&text);
                false
            }
            Reply::Close(text) => {
                self.send(&text);
                self.stream = None;
                false
            }
            Reply::Never => false,
            Reply::End => true,
        }
    }
}

// Reads what came. How many requests are open.
fn read_all(callers: &mut Vec<Caller>, told: &Told) -> usize {
    let mut open = 0usize;
    for caller in callers.iter_mut() {
        if caller.read() {
            let _ = told.requests.fetch_add(1, SeqCst);
        }
        if caller.is_whole() {
            open = open.saturating_add(1);
        }
    }
    open
}

// Replies to all whose requests are whole. Whether the origin is to end.
fn reply_all<H: Clock>(rt: &H, alloc: Global, callers: &mut Vec<Caller>) -> bool {
    let mut ends = false;
    for caller in callers.iter_mut() {
        if caller.is_whole() {
            ends |= caller.reply(rt, alloc);
        }
    }
    ends
}

/// Serves until it is told to end. It holds each reply back until so many requests were open at once.
pub fn serve<H: Clock>(rt: &H, alloc: Global, listener: TcpListener, hold: usize, told: &Told) {
    if listener.set_nonblocking(true).is_err() {
        return;
    }
    let mut callers = Vec::new(alloc);
    let mut held = hold > 0;
    for _ in 0..LOOKS {
        if told.stopping.load(SeqCst) {
            return;
        }
        accept_all(alloc, &listener, &mut callers);
        let open = read_all(&mut callers, told);
        let _ = told.open.fetch_max(open, SeqCst);
        held &= open < hold;
        if !held && reply_all(rt, alloc, &mut callers) {
            // First: a caller whose connection has ended could else connect once more.
            drop(listener);
            return;
        }
        thread::sleep(rt, Duration::from_millis(1));
    }
}

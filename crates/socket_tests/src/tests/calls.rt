//! A source that lets clients wait: calls for some keys wait until they may go on.

use super::clients::is_soon;
use super::plans::Held;
use std::alloc::Global;
use std::hint::spin_loop;
use std::sync::atomic::AtomicBool;
use std::sync::atomic::Ordering::SeqCst;
use std::time::Clock;
use test_support::Hook;

/// How far the call for a key is, and whether it may go on.
#[derive(Drop)]
pub struct Call {
    pub called: AtomicBool,
    pub open: AtomicBool,
}

impl Call {
    // It was not called, and may not go on.
    fn new() -> Call {
        Call {
            called: AtomicBool::new(false),
            open: AtomicBool::new(false),
        }
    }

    // The source is called. Whether it may go on within some seconds.
    fn wait(&self) -> bool {
        self.called.store(true, SeqCst);
        for _ in 0..4_000_000_000u64 {
            if self.open.load(SeqCst) {
                return true;
            }
            spin_loop();
        }
        false
    }

    /// It was not called, and may not go on, once more.
    pub fn close(&self) {
        self.called.store(false, SeqCst);
        self.open.store(false, SeqCst);
    }

    /// It may go on.
    pub fn open(&self) {
        self.open.store(true, SeqCst);
    }

    /// Waits until the source was called, for some seconds at most.
    pub fn is_called<H: Clock>(&self, rt: &H) -> bool {
        is_soon(rt, || self.called.load(SeqCst))
    }
}

/// The calls for the key `slow`, and for keys that begin with `one` and with `two`.
#[derive(Drop)]
pub struct Calls {
    pub slow: Call,
    pub one: Call,
    pub two: Call,
}

impl Calls {
    /// None of them began.
    pub fn new() -> Calls {
        Calls {
            slow: Call::new(),
            one: Call::new(),
            two: Call::new(),
        }
    }

    /// All may go on.
    pub fn open_all(&self) {
        self.slow.open();
        self.one.open();
        self.two.open();
    }
}

/// A source whose calls for these keys wait, and those for numbers where that is wanted.
#[derive(Clone, Copy, Drop)]
pub struct Waiting<'a> {
    pub calls: &'a Calls,
    pub held: Held,
}

// How many steps a call lasts longer than the one before, and after how many calls it begins anew.
const STEPS: usize = 4;

const SWEEP: usize = 1_000;

// Takes so many steps as the number of this key says, so that a fill comes at each moment of a thread that falls asleep.
fn last_longer(key: &[u8]) {
    let number = key.iter().fold(0usize, |sum, digit| {
        sum.wrapping_mul(10).wrapping_add(*digit as usize)
    });
    for _ in 0..(number % SWEEP).wrapping_mul(STEPS) {
        spin_loop();
    }
}

// Whether a key is a number.
fn is_number(key: &[u8]) -> bool {
    match key.first() {
        Some(first) => first.is_ascii_digit(),
        None => false,
    }
}

impl Waiting<'_> {
    // Whether the source may be called for a number, where it waits at two of them.
    fn may_call_two(&self, key: &[u8]) -> bool {
        if key == b"00001".as_slice() {
            self.calls.one.wait()
        } else if key == b"00002".as_slice() {
            self.calls.two.wait()
        } else {
            true
        }
    }

    // Whether it may be called for a number.
    fn may_call_number(&self, key: &[u8]) -> bool {
        match self.held {
            Held::Nothing => true,
            Held::Numbers => self.calls.slow.wait(),
            Held::TwoNumbers => self.may_call_two(key),
            Held::Longer => {
                last_longer(key);
                true
            }
        }
    }
}

impl Hook for Waiting<'_> {
    fn may_call(&self, _alloc: Global, key: &[u8]) -> bool {
        if is_number(key) {
            return self.may_call_number(key);
        }
        match key {
            b"slow" => self.calls.slow.wait(),
            [b'o', b'n', b'e', ..] => self.calls.one.wait(),
            [b't', b'w', b'o', ..] => self.calls.two.wait(),
            _ => true,
        }
    }
}

/// A request for the key `slow`.
pub const ASK_SLOW: &[u8] = b"GET /_groupcache/echo/slow HTTP/1.1\r\nHost: h\r\n\r\n";

/// Its reply.
pub const FOUND_SLOW: &[u8] =
    b"HTTP/1.1 200 OK\r\nContent-Type: application/x-protobuf\r\nContent-Length: 6\r\n\r\n\x0A\x04slow";

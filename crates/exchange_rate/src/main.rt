//! The program: a connection as a state over memory, one thread, a worker's jobs filled between its calls.
//!
//! It reads requests from standard input to its end, hands them to an exchange a thousand bytes at a time, and prints how
//! many bytes were sent in one line. `bench/instructions.py` counts its instructions. It stands on `exchange_drive`.
#![tactic(auto)]

ghost use Rattle.std.specs.Prelude.{◌≡◌};

use exchange_drive::{Driven, Steps};
use peer_source::DemoSource;
use std::alloc::Global;
use std::io::Read;
use std::marker::Brand;
use std::process::ExitCode;
use std::sync::Wait;
use std::sync::ledger::{Blank, Ledger};
use test_support::open_pool;

// How many bytes each cache keeps.
const CACHE_BYTES: u64 = 1_048_576;

// How many bytes come and go in one turn.
const STEPS: Steps = Steps {
    input: 1000,
    output: 100_000,
};

fn main(rt: HostRuntime) -> ExitCode {
    let mut text = Vec::new(rt.alloc());
    let Ok(_) = rt.stdin().read_to_end(&mut text) else {
        let _ = eprintln!(rt; "exchange_rate: read failed");
        return ExitCode::from(1);
    };
    let Some(count) = run(&rt, rt.alloc(), &text) else {
        let _ = eprintln!(rt; "exchange_rate: out of memory");
        return ExitCode::from(1);
    };
    match println!(rt; "{count}") {
        Ok(()) => ExitCode::from(0),
        Err(_) => ExitCode::from(1),
    }
}

// How many bytes are sent for a text.
fn run<H: Wait>(rt: &H, alloc: Global, text: &[u8]) -> Option<usize> {
    sent_for::<Brand, H>(rt, alloc, text, Blank::new(16))
}

// The same in a ledger.
fn sent_for<L: Ledger, H: Wait>(rt: &H, alloc: Global, text: &[u8], blank: Blank) -> Option<usize>
    requires name { blank.name ≡ L.name }
    requires parts { (blank.parts ≡ L.parts) × (blank.parts ≡ 16) }
{
    let opened = open_pool::<DemoSource, L>(alloc, DemoSource, CACHE_BYTES, 1, 1, blank);
    let Some((pool, lists)) = opened else {
        return None;
    };
    let mut driven = Driven::new(alloc, &pool, lists)?;
    let _ = driven.drive(rt, alloc, text, STEPS).ok()?;
    Some(driven.sent().len())
}

//! The program: texts made by chance, through a connection as a state and beside a plain model of it.
//!
//! Its words are a seed, how many texts there are, and how many bytes each cache of the pool keeps. It prints how many texts
//! were compared, and how many were not answered as the model says; its status is 1 where there was one, with its number on
//! standard error. It stands on `exchange_drive`. `bench/streams.py` runs it with many seeds.
#![tactic(auto)]

ghost use Rattle.std.specs.Prelude.{◌≡◌};

use exchange_drive::{Compared, compare};
use std::alloc::Global;
use std::env;
use std::marker::Brand;
use std::process::ExitCode;
use std::sync::Wait;
use std::sync::ledger::Blank;

// What is compared.
#[derive(Clone, Copy)]
struct Words {
    seed: u64,
    count: u64,
    cache_bytes: u64,
}

fn main(rt: HostRuntime) -> ExitCode {
    let Some(words) = words_of(&rt) else {
        let _ = eprintln!(rt; "usage: streams SEED COUNT CACHE_BYTES");
        return ExitCode::from(2);
    };
    let Some(compared) = run(&rt, rt.alloc(), words) else {
        let _ = eprintln!(rt; "streams: out of memory");
        return ExitCode::from(3);
    };
    let Compared {
        checks,
        failures,
        first,
    } = compared;
    let Ok(()) = println!(rt; "checks {checks} failures {failures}") else {
        return ExitCode::from(3);
    };
    if failures == 0 {
        return ExitCode::from(0);
    }
    let _ = eprintln!(rt; "streams: text {first} is not answered as the model says");
    ExitCode::from(1)
}

// The words of the call, or none where one is no number.
fn words_of(rt: &HostRuntime) -> Option<Words> {
    let mut args = env::args(rt).ok()?;
    let _program = args.next();
    let seed = args.next()?.parse::<u64>().ok()?;
    let count = args.next()?.parse::<u64>().ok()?;
    let cache_bytes = args.next()?.parse::<u64>().ok()?;
    Some(Words {
        seed,
        count,
        cache_bytes,
    })
}

// Compares so many texts. None where memory was refused.
fn run<H: Wait>(rt: &H, alloc: Global, words: Words) -> Option<Compared> {
    let Words {
        seed,
        count,
        cache_bytes,
    } = words;
    compare::<Brand, H>(rt, alloc, seed, count, cache_bytes, Blank::new(16))
}

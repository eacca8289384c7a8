//! The program: how many request heads stand on standard input, as `peer_head` cuts them.
//!
//! It prints the number in one line. Its status is 1, with a line on standard error, where it stopped before the input
//! ended. `bench/head.py` takes its time.
#![tactic(auto)]

mod count;

use crate::count::{Stop, count_heads};
use peer_head::HeadBuf;
use peer_view::StdReader;
use std::process::ExitCode;

fn main(rt: HostRuntime) -> ExitCode {
    let Ok(held) = HeadBuf::new(rt.alloc()) else {
        let _ = eprintln!(rt; "head_rate: out of memory");
        return ExitCode::from(1);
    };
    let (count, stop) = count_heads(held, StdReader::new(rt.stdin()));
    let Ok(()) = println!(rt; "{count}") else {
        return ExitCode::from(1);
    };
    let line = line_of(stop);
    if line.is_empty() {
        return ExitCode::from(0);
    }
    let _ = eprintln!(rt; "{line}");
    ExitCode::from(1)
}

// The line on standard error, empty where the input ended.
fn line_of(stop: Stop) -> &'static str {
    match stop {
        Stop::Ended => "",
        Stop::Fault => "head_rate: a head has a fault",
        Stop::ReadFailed => "head_rate: read failed",
        Stop::Spent => "head_rate: too many reads",
    }
}

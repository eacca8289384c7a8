//! The source for demonstrations: `echo`, `square` and `fill`.
ghost use Rattle.std.specs.Prelude.{◌≡◌, ◌<◌, ◌≤◌, ℕ, None, Some, Ok, Err, IfSome, IfOk, refl, replicate};
ghost use Rattle.peer_source.specs.Answers.{found_within};
ghost use Rattle.peer_source.specs.Demo.{DemoAnswers, demo_number, demo_answer, square_answer, fill_answer, number_in};
ghost use Rattle.peer_source.specs.Demo.{demo_answered, demo_numbered};
ghost use Rattle.peer_source.specs.DemoLaws.{demo_limited};
ghost use Rattle.peer_source.specs.Reports.{reported};

use crate::functional::FunctionalSource;
use crate::group::GroupId;
use crate::source::{GetFault, GetResult, Source};
use itoa::Buffer;
use peer_view::{AllocSink, ByteView, MAX_VALUE, SinkFault};
use std::alloc::{AllocError, Global};

// The largest number of bytes that `fill` knows; above `MAX_VALUE` they are too long.
const MAX_FILL: u64 = 2_000_000;

/// Three groups, in this order: `echo` finds the key, `square` the square of a number of at most 9 digits, `fill` so
/// many bytes `x`, up to 2,000,000.
#[derive(Clone, Copy, Debug)]
pub struct DemoSource;

// The number that a text of 1 to `most` digits writes.
fn number_of(text: &[u8], most: usize) -> Option<u64>
    requires { most ≤ 9 }
    ensures number { result ≡ number_in most text.now }
    ensures small { IfSome result (λ n. n < 1000000000) }
{
    if text.is_empty() || text.len() > most {
        return None;
    }
    let mut number = 0u64;
    for digit in text {
        if !digit.is_ascii_digit() {
            return None;
        }
        number = number * 10 + u64::from(*digit - b'0');
    }
    Some(number)
}

// What a sink's refusal is for a source.
fn refusal(fault: SinkFault) -> GetFault
    ensures too_long { fault ≡ SinkFault.TooLong → result ≡ GetFault.TooLong }
    ensures memory { fault ≡ SinkFault.Memory → result ≡ GetFault.Memory }
{
    match fault {
        SinkFault::TooLong => GetFault::TooLong,
        SinkFault::Memory => GetFault::Memory,
    }
}

// Finds the bytes.
fn find(alloc: Global, value: &[u8], sink: &mut AllocSink) -> Result<(), GetFault>
    ensures { IfSome (reported result sink.new) (λ a. a ≡ found_within value.now) }
{
    sink.set_bytes(alloc, value).map_err(refusal)
}

// Finds the square of a number.
fn square(alloc: Global, key: &[u8], sink: &mut AllocSink) -> Result<(), GetFault>
    ensures { IfSome (reported result sink.new) (λ a. a ≡ square_answer key.now) }
{
    match number_of(key, 9) {
        Some(number) => find(
            alloc,
            Buffer::new().format(number * number).as_bytes(),
            sink,
        ),
        None => Err(GetFault::with_text(alloc, b"not a number")),
    }
}

// Finds so many bytes `x`, made once and handed over.
fn fill(alloc: Global, key: &[u8], sink: &mut AllocSink) -> Result<(), GetFault>
    ensures { IfSome (reported result sink.new) (λ a. a ≡ fill_answer key.now) }
{
    match number_of(key, 7) {
        Some(number) if number <= MAX_FILL => find_letters(alloc, number as usize, sink),
        _ => Err(GetFault::with_text(alloc, b"not a size")),
    }
}

// Finds so many bytes `x`.
fn find_letters(alloc: Global, count: usize, sink: &mut AllocSink) -> Result<(), GetFault>
    ensures { IfSome (reported result sink.new) (λ a. a ≡ found_within (replicate count 120)) }
{
    if count > MAX_VALUE {
        return Err(GetFault::TooLong);
    }
    match letters(alloc, count) {
        Ok(view) => sink.set_view(&view).map_err(refusal),
        Err(_) => Err(GetFault::Memory),
    }
}

// So many bytes `x`.
fn letters(alloc: Global, count: usize) -> Result<ByteView, AllocError>
    ensures { IfOk result (λ v. v ≡ replicate count 120) }
{
    let mut bytes = Vec::new(alloc);
    bytes.resize(count, b'x')?;
    ByteView::from_vec(bytes)
}

impl Source for DemoSource {
    ghost answers = { λ s g k a. DemoAnswers g k a };

    ghost allowed = { DemoAnswers };

    ghost count = { λ s. 3 };

    ghost number_of = { λ s name. demo_number name };

    fn group_count(&self) -> usize {
        3
    }

    fn group(&self, name: &[u8]) -> Option<GroupId> {
        if name == b"echo".as_slice() {
            return Some(GroupId { number: 0 });
        }
        if name == b"square".as_slice() {
            return Some(GroupId { number: 1 });
        }
        if name == b"fill".as_slice() {
            return Some(GroupId { number: 2 });
        }
        None
    }

    fn get(&self, alloc: Global, group: GroupId, key: &[u8], sink: &mut AllocSink) -> GetResult {
        match group.number {
            0 => find(alloc, key, sink),
            1 => square(alloc, key, sink),
            2 => fill(alloc, key, sink),
            _ => Err(GetFault::with_text(alloc, b"no group")),
        }
    }

    ghost within = { λ s g k a h. h };

    ghost limited = { λ g k a h. demo_limited g k a h };

    ghost answered = { λ s g k. demo_answered g k };

    ghost numbered = { λ s name i e. demo_numbered name i e };
}

impl FunctionalSource for DemoSource {
    ghost the_answer = { demo_answer };

    ghost the_number = { demo_number };

    ghost single = { λ g k a h. h };

    ghost fixed_names = { λ s name. refl };
}

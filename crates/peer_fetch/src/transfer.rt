//! How the request for a value is sent on a connection that never waits, and its reply received.
//!
//! It promises that what the fetch is told was sent and came is what the network's writes and reads say of the connection, and that a
//! status that is told as a failure is one that came there.
ghost use Rattle.std.specs.Prelude.{◌≡◌, ◌<◌, ◌++◌, ◌||◌, ◌==◌, length, IfErr, IfOk, IfSome};
ghost use Rattle.peer_runtime.specs.Wires.{Carried};
ghost use Rattle.peer_value.specs.UnderWays.{HasSameJob, IsAnswerTo, IsAsked};
ghost use Rattle.peer_value.specs.Values.{IsFailureOf, IsSameTry};
ghost use Rattle.peer_fetch.specs.Transfers.{HasRead, IsHaltOf, IsOn};

use peer_origin::{Failure, Wires};
use peer_runtime::{Readiness, Wire, was_interrupted, would_block};
use peer_source::Source;
use peer_value::{Answer, UnderWay};
use std::io;

// How often is read or written for one value before others have their turn: with a buffer of 64 KiB a value of 1 MiB and its head.
const ROUNDS: u32 = 17;

/// Why a turn ends without an answer.
#[derive(Clone, Copy)]
pub enum Halt {
    Waits,
    Busy,
    Failed(Failure),
}

// Sends bytes off the front of what is to be sent, and says how many.
fn write<S: Source, H: Wires>(
    rt: &H,
    wire: &mut Wire,
    under: &mut UnderWay<'_, S>,
) -> io::Result<usize>
    requires carried { Carried H.carried wire.old }
    requires on { IsOn wire.old under.old }
    ensures kept { HasSameJob under.old under.new }
    ensures carried { Carried H.carried wire.new }
    ensures on { IsOn wire.new under.new }
{
    match rt.write(wire, under.unsent()) {
        Ok(n) => {
            under.sent(n);
            Ok(n)
        }
        Err(error) => Err(error),
    }
}

/// Sends what is to be sent. None once all is.
pub fn send<S: Source, H: Wires>(
    rt: &H,
    wire: &mut Wire,
    under: &mut UnderWay<'_, S>,
) -> Option<Halt>
    requires carried { Carried H.carried wire.old }
    requires on { IsOn wire.old under.old }
    ensures kept { HasSameJob under.old under.new }
    ensures carried { Carried H.carried wire.new }
    ensures on { IsOn wire.new under.new }
    ensures halt { IfSome result (IsHaltOf under.new) }
{
    for _ in 0..ROUNDS {
        if under.is_sent() {
            return None;
        }
        match write(rt, wire, under) {
            Ok(0) => return Some(Halt::Failed(under.cut())),
            Ok(_) => {}
            Err(error) if would_block(&error) => return Some(Halt::Waits),
            Err(error) if was_interrupted(&error) => {}
            Err(_) => return Some(Halt::Failed(under.cut())),
        }
    }
    Some(Halt::Busy)
}

// Reads what has come. `Some(0)` is the end of the stream, and none is nothing that has come.
fn read<H: Wires>(
    rt: &H,
    wire: &mut Wire,
    room: &mut [u8],
    readiness: &mut Readiness,
) -> io::Result<Option<usize>>
    requires room { 0 < length room.old }
    requires carried { Carried H.carried wire.old }
    ensures read { HasRead result wire.old wire.new room.new }
    ensures carried { Carried H.carried wire.new }
{
    match rt.read(wire, room) {
        Ok(n) => {
            // Less than there was room for is all that has come.
            readiness.readable = n == room.len() || readiness.read_closed;
            Ok(Some(n))
        }
        Err(error) if would_block(&error) => {
            readiness.readable = false;
            Ok(None)
        }
        Err(error) if was_interrupted(&error) => Ok(None),
        Err(error) => Err(error),
    }
}

// Takes in what was read, no byte being the end of the connection. None where there is no answer yet.
fn take_in<S: Source>(under: &mut UnderWay<'_, S>, bytes: &[u8]) -> Result<Option<Answer>, Failure>
    requires { IsAsked under.old }
    ensures kept { HasSameJob under.old under.new }
    ensures same { IsSameTry under.old.fetching under.new.fetching }
    ensures came { under.new.fetching.receiving.came.bytes ≡ under.old.fetching.receiving.came.bytes ++ bytes.now }
    ensures ended { under.new.fetching.ended ≡ (under.old.fetching.ended || length bytes.now == 0) }
    ensures answer { IfOk result (λ came. IfSome came (IsAnswerTo under.new)) }
    ensures failure { IfErr result (IsFailureOf under.new.fetching) }
{
    if bytes.is_empty() {
        let answer = under.end()?;
        return Ok(Some(answer));
    }
    under.receive(bytes)
}

// Reads what has come, and takes it in. None if there is no answer yet.
fn receive_some<S: Source, H: Wires>(
    rt: &H,
    wire: &mut Wire,
    under: &mut UnderWay<'_, S>,
    buffer: &mut [u8],
    readiness: &mut Readiness,
) -> Result<Option<Answer>, Failure>
    requires room { 0 < length buffer.old }
    requires asked { IsAsked under.old }
    requires carried { Carried H.carried wire.old }
    requires on { IsOn wire.old under.old }
    ensures kept { HasSameJob under.old under.new }
    ensures carried { Carried H.carried wire.new }
    ensures on { IsOn wire.new under.new }
    ensures answer { IfOk result (λ came. IfSome came (IsAnswerTo under.new)) }
    ensures failure { IfErr result (IsFailureOf under.new.fetching) }
{
    let Ok(came) = read(rt, wire, buffer, readiness) else {
        return Err(under.cut());
    };
    match came {
        Some(n) => take_in(under, &buffer[..n]),
        None => Ok(None),
    }
}

/// Receives what comes, once all is sent.
pub fn receive<S: Source, H: Wires>(
    rt: &H,
    wire: &mut Wire,
    under: &mut UnderWay<'_, S>,
    buffer: &mut [u8],
    readiness: &mut Readiness,
) -> Result<Answer, Halt>
    requires carried { Carried H.carried wire.old }
    requires on { IsOn wire.old under.old }
    ensures kept { HasSameJob under.old under.new }
    ensures carried { Carried H.carried wire.new }
    ensures on { IsOn wire.new under.new }
    ensures answer { IfOk result (IsAnswerTo under.new) }
    ensures halt { IfErr result (IsHaltOf under.new) }
{
    for _ in 0..ROUNDS {
        if !readiness.readable || !under.is_sent() || buffer.is_empty() {
            return Err(Halt::Waits);
        }
        match receive_some(rt, wire, under, buffer, readiness) {
            Ok(None) => {}
            Ok(Some(answer)) => return Ok(answer),
            Err(failure) => return Err(Halt::Failed(failure)),
        }
    }
    Err(Halt::Busy)
}

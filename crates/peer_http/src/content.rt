//! The content of a reply.
ghost use Rattle.std.specs.Prelude.{◌≡◌, ◌≤◌, ◌++◌, [], IfOk, OnOk, length};
ghost use Rattle.peer_http.specs.Receivings.{TakesContent};
ghost use Rattle.peer_http.specs.Replies.{EndsHere, TakesNext};

use crate::fault::Fault;
use crate::intake::Intake;
use http1::{BodySize, Client, Event};
use httparse::spans::HeaderSpan;
use std::alloc::Global;

// How many pieces are taken at once.
const PIECES: u64 = 4_000_000;

/// What was taken of a body.
#[derive(Clone, Copy)]
pub(crate) enum Taken {
    Piece,
    End,
    // More has to come first.
    Nothing,
}

// Appends a piece of a body, which may have so many bytes.
fn append(value: &mut Vec<u8>, piece: &[u8], most: usize) -> Result<(), Fault>
    requires { length value.old.items ≤ most }
    ensures ok { OnOk result (value.new.items ≡ value.old.items ++ piece.now) }
    ensures within { length value.new.items ≤ most }
{
    if piece.len() > most - value.len() {
        return Err(Fault::TooLong);
    }
    match value.extend_from_slice(piece) {
        Ok(()) => Ok(()),
        Err(_) => Err(Fault::Memory),
    }
}

/// Room for a body of a size that is told, where it may have so many bytes.
pub(crate) fn room_for(alloc: Global, client: &Client, most: usize) -> Result<Vec<u8>, Fault>
    ensures { IfOk result (λ v. v.items ≡ []) }
{
    let size = match client.unread_size() {
        BodySize::Known(size) => size,
        _ => 0,
    };
    if size > most as u64 {
        return Err(Fault::TooLong);
    }
    match Vec::with_capacity(alloc, size as usize) {
        Ok(value) => Ok(value),
        Err(_) => Err(Fault::Memory),
    }
}

/// Whether the body ended with the connection.
pub(crate) fn ends_here(client: &mut Client) -> bool
    ensures { EndsHere result client.old client.new }
{
    matches!(client.read_eof(), Ok(Event::End(_)))
}

// Takes what comes next of a body, which may have so many bytes.
fn take_next(
    client: &mut Client,
    intake: &mut Intake,
    spans: &mut [HeaderSpan],
    value: &mut Vec<u8>,
    most: usize,
) -> Result<Taken, Fault>
    requires { length value.old.items ≤ most }
    ensures within { length value.new.items ≤ most }
    ensures taken { TakesNext client.old client.new intake.old intake.new value.old.items value.new.items result }
{
    let Ok(read) = client.read(intake.unread(), spans) else {
        return Err(Fault::Malformed);
    };
    match read.event {
        Event::NeedMore => {
            intake.take(read.consumed);
            Ok(Taken::Nothing)
        }
        Event::End(_) => {
            intake.take(read.consumed);
            Ok(Taken::End)
        }
        Event::Data(span) => {
            if let Err(fault) = append(value, span.of(intake.unread()), most) {
                return Err(fault);
            }
            intake.take(read.consumed);
            Ok(Taken::Piece)
        }
        _ => Err(Fault::Malformed),
    }
}

/// Takes what came of a body, which may have so many bytes, and says whether that was the whole of it.
pub(crate) fn take_content(
    client: &mut Client,
    intake: &mut Intake,
    spans: &mut [HeaderSpan],
    value: &mut Vec<u8>,
    most: usize,
) -> Result<bool, Fault>
    requires { length value.old.items ≤ most }
    ensures within { length value.new.items ≤ most }
    ensures taken { TakesContent client.old client.new intake.old intake.new value.old.items value.new.items result }
{
    for _piece in 0..PIECES {
        match take_next(client, intake, spans, value, most) {
            Ok(Taken::Piece) => {}
            Ok(Taken::End) => return Ok(true),
            Ok(Taken::Nothing) => return Ok(false),
            Err(fault) => return Err(fault),
        }
    }
    Err(Fault::TooLong)
}

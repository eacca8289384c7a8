//! The heads of a reply: those of interim ones, and that of the final one.
ghost use Rattle.std.specs.Prelude.{◌≡◌, ◌≤◌, false};
ghost use Rattle.http1.specs.Client.{IsReadWithin};
ghost use Rattle.peer_http.specs.Requests.{Awaits};
ghost use Rattle.peer_http.specs.Receivings.{FindsHead};
ghost use Rattle.peer_http.specs.Replies.{FindsNext, IsUncodedAt};

use crate::fault::Fault;
use crate::intake::Intake;
use http1::fields::KnownFields;
use http1::{Client, Event, Progress};
use httparse::spans::{HeaderSpan, ResponseSpans};

// How many heads are taken at once.
const HEADS: u64 = 4_000_000;

/// What was found of the heads of a reply.
#[derive(Clone, Copy)]
pub(crate) enum Found {
    // The head of the final reply, and its status.
    Final(u16),
    // That of an interim one.
    Interim,
    // No whole head.
    Nothing,
}

// Whether what was read is a head whose body has a coding beside `chunked`, which was not asked for.
fn is_coded(input: &[u8], spans: &[HeaderSpan], read: Progress<ResponseSpans>) -> bool
    requires { IsReadWithin input.now spans.now read }
    ensures { result ≡ false → IsUncodedAt input.now spans.now read.event }
{
    match read.event {
        Event::Head(head) => { KnownFields::from_spans(input, &spans[..head.headers]).other_coding }
        _ => false,
    }
}

// Takes what comes next of the heads of a reply.
fn next_head(
    client: &mut Client,
    intake: &mut Intake,
    spans: &mut [HeaderSpan],
) -> Result<Found, Fault>
    requires { Awaits client.old }
    ensures { FindsNext client.new intake.old intake.new result }
{
    let Ok(read) = client.read(intake.unread(), spans) else {
        return Err(Fault::Malformed);
    };
    if is_coded(intake.unread(), spans, read) {
        return Err(Fault::Malformed);
    }
    match read.event {
        Event::NeedMore => Ok(Found::Nothing),
        Event::Informational(_) => {
            intake.take(read.consumed);
            Ok(Found::Interim)
        }
        Event::Head(head) if head.code >= 200 => {
            intake.take(read.consumed);
            Ok(Found::Final(head.code))
        }
        _ => Err(Fault::Malformed),
    }
}

/// Takes the heads that came, and gives the status of the final reply, once its head is there. Interim replies are passed
/// over.
pub(crate) fn find_head(
    client: &mut Client,
    intake: &mut Intake,
    spans: &mut [HeaderSpan],
) -> Result<Option<u16>, Fault>
    requires { Awaits client.old }
    ensures { FindsHead client.new intake.old intake.new result }
{
    for _head in 0..HEADS {
        match next_head(client, intake, spans) {
            Ok(Found::Interim) => {}
            Ok(Found::Final(status)) => return Ok(Some(status)),
            Ok(Found::Nothing) => return Ok(None),
            Err(fault) => return Err(fault),
        }
    }
    Err(Fault::Malformed)
}

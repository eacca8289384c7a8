//! A connection in one thread.
//!
//! It stands on the requests and the responses of a connection, and on the sources of `peer_source`. It promises that
//! what is written is the replies to what was read, as the end says.
ghost use Rattle.std.specs.Prelude.{◌≡◌, ◌≢◌, ℕ, ◌+◌, ◌-◌, ◌^◌, ◌<◌, List, Option, [], ◌∷◌, Some, IfErr, OnOk};
ghost use Rattle.peer_head.specs.Blocks.{IsUnfinished};
ghost use Rattle.peer_wish.specs.Allowed.{only};
ghost use Rattle.peer_conn.specs.Calls.{CallServes, CallTells, CallWrites};
ghost use Rattle.peer_conn.specs.Requests.{Reads};
ghost use Rattle.peer_conn.specs.Responses.{IsFlushed, PutsReplies};
ghost use Rattle.peer_conn.specs.Exchanges.{Exchanges};

use crate::end::{ReaderStop, Served, end_of};
use crate::halves::{Halves, new_halves};
use crate::requests::{NextRequest, Requests};
use crate::responses::Responses;
use peer_flight::AskFault;
use peer_reply::{ReplyForm, Wish, WishBody};
use peer_source::{Fill, FunctionalSource, Names, Source};
use peer_view::{PeerRead, PeerWrite};
use peer_wish::End;
use std::alloc::Global;

/// Serves one connection with at most `reads` reads, in the caller's thread.
///
/// Every head that is held is answered before the next read, and nothing is read behind a closing reply. Replies are
/// buffered, and written before a read, where there are many, and at the end.
pub fn serve_serial<S: Source, R: PeerRead, W: PeerWrite>(
    alloc: Global,
    source: &S,
    reader: R,
    writer: W,
    reads: u64,
) -> Served<R, W>
    requires calls { R.calls reader + reads < 2 ^ 64 }
    requires failures { W.failures writer < 2 ^ 64 - 1 }
    ensures serves { CallServes R.PeerRead W.PeerWrite reader writer result (S.number_of source.now) (S.answers source.now) reads }
    ensures never_worn { result.end ≢ End.Worn }
{
    let halves = match new_halves(alloc, reader, writer, reads) {
        Ok(halves) => halves,
        Err(served) => return served,
    };
    let Halves {
        mut requests,
        mut responses,
    } = halves;
    let names = Names::of(source);
    let stop = answer_all(alloc, source, &names, &mut requests, &mut responses);
    responses.flush();
    Served {
        reader: requests.reader,
        end: end_of(responses.state, stop),
        writer: responses.out.writer,
    }
}

/// `serve_serial`, whose replies are those of the one answer for each group and key.
pub fn serve_functional<S: FunctionalSource, R: PeerRead, W: PeerWrite>(
    alloc: Global,
    source: &S,
    reader: R,
    writer: W,
    reads: u64,
) -> Served<R, W>
    requires calls { R.calls reader + reads < 2 ^ 64 }
    requires failures { W.failures writer < 2 ^ 64 - 1 }
    ensures serves { CallServes R.PeerRead W.PeerWrite reader writer result S.the_number (only S.the_answer) reads }
    ensures writes_replies { CallWrites R.PeerRead W.PeerWrite reader writer result S.the_number (only S.the_answer) }
    ensures never_worn { result.end ≢ End.Worn }
{
    serve_serial(alloc, source, reader, writer, reads)
}

/// `serve_serial`, where the reader and the writer tell their bytes, none before the call: its end is that of the very
/// bytes that came and went.
pub fn serve_told<S: Source, R: PeerRead, W: PeerWrite>(
    alloc: Global,
    source: &S,
    reader: R,
    writer: W,
    reads: u64,
) -> Served<R, W>
    requires calls { R.calls reader + reads < 2 ^ 64 }
    requires failures { W.failures writer < 2 ^ 64 - 1 }
    requires tells { R.given reader ≡ Some [] }
    requires holds { W.taken writer ≡ Some [] }
    ensures { CallTells R.PeerRead W.PeerWrite reader writer result (S.number_of source.now) (S.answers source.now) reads }
{
    serve_serial(alloc, source, reader, writer, reads)
}

// Answers every request, until one closes or no more come.
fn answer_all<S: Source, R: PeerRead, W: PeerWrite>(
    alloc: Global,
    source: &S,
    names: &Names<'_, S>,
    requests: &mut Requests<R>,
    responses: &mut Responses<W>,
) -> ReaderStop
    ensures serves { Exchanges (S.number_of names.now) (S.answers source.now) requests.old requests.new responses.old responses.new result }
    ensures never_worn { result ≢ ReaderStop.Refused AskFault.Worn }
{
    loop {
        match requests.next_held(names) {
            NextRequest::Request(wish) => answer(alloc, source, wish, responses),
            NextRequest::Last(wish) => {
                answer(alloc, source, wish, responses);
                return ReaderStop::Closed;
            }
            NextRequest::Need => match write_and_read(requests, responses) {
                Ok(()) => continue,
                Err(stop) => return stop,
            },
            NextRequest::NoMemory => return ReaderStop::Refused(AskFault::Memory),
        }
        if !responses.is_active() {
            return ReaderStop::Stopped;
        }
    }
}

// Writes what is buffered, and reads once, unless no more replies are put.
fn write_and_read<R: PeerRead, W: PeerWrite>(
    requests: &mut Requests<R>,
    responses: &mut Responses<W>,
) -> Result<(), ReaderStop>
    requires { IsUnfinished requests.old.held.held }
    ensures reads { (numbers : List ℕ → Option ℕ) → Reads numbers requests.old requests.new result }
    ensures left { OnOk result (requests.new.left + 1 ≡ requests.old.left) }
    ensures flushes { IsFlushed responses.old responses.new }
    ensures never_worn { IfErr result (λ stop. stop ≢ ReaderStop.Refused AskFault.Worn) }
{
    responses.flush();
    if !responses.is_active() {
        return Err(ReaderStop::Stopped);
    }
    requests.read()
}

// Puts the reply to a request, for which it calls the source where the request has no fault.
fn answer<S: Source, W: PeerWrite>(
    alloc: Global,
    source: &S,
    wish: Wish,
    responses: &mut Responses<W>,
)
    ensures { PutsReplies (S.answers source.now) responses.old responses.new (wish ∷ []) }
{
    let Wish {
        body,
        closing,
        bare,
    } = wish;
    let form = ReplyForm { closing, bare };
    match body {
        WishBody::Fault(fault) => responses.put_fault(&fault, form),
        WishBody::Get(group, key) => {
            let fill = Fill::run(alloc, source, group, key);
            responses.put_fill(&fill, form)
        }
    }
}

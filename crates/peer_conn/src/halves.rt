//! The two halves of a connection before its first read.
//!
//! It stands on the requests and the responses of a connection. It promises both, where nothing was read, put or written yet;
//! or the end of a connection that was refused it, with the reader and the writer as they came.
ghost use Rattle.std.specs.Prelude.{◌≡◌, ◌+◌, ◌-◌, ◌^◌, ◌<◌, [], IfOk, IfErr};
ghost use Rattle.peer_lane.specs.Lanes.{tickets_put, tickets_taken, IsLane};
ghost use Rattle.peer_conn.specs.Halves.{AreNewHalves};
ghost use Rattle.peer_conn.specs.Refusals.{IsRefused};

use crate::end::{Served, refused};
use crate::requests::Requests;
use crate::responses::Responses;
use peer_lane::{LaneIn, LaneOut, lane};
use peer_source::Source;
use peer_view::{PeerRead, PeerWrite};
use std::alloc::Global;

/// What reads and what writes.
#[derive(Drop)]
pub(crate) struct Halves<R: PeerRead, W: PeerWrite> {
    pub(crate) requests: Requests<R>,
    pub(crate) responses: Responses<W>,
}

/// Both, with the two ends of the lane between them.
#[derive(Drop)]
pub(crate) struct LinkedHalves<S: Source, R: PeerRead, W: PeerWrite> {
    pub(crate) halves: Halves<R, W>,
    pub(crate) put: LaneIn<S>,
    pub(crate) taken: LaneOut<S>,
}

/// Takes the memory of both, for at most `reads` reads.
pub(crate) fn new_halves<R: PeerRead, W: PeerWrite>(
    alloc: Global,
    reader: R,
    writer: W,
    reads: u64,
) -> Result<Halves<R, W>, Served<R, W>>
    requires calls { R.calls reader + reads < 2 ^ 64 }
    requires failures { W.failures writer < 2 ^ 64 - 1 }
    ensures ok { IfOk result (λ halves. AreNewHalves reader writer reads halves) }
    ensures err { IfErr result (λ served. IsRefused reader writer served) }
{
    let responses = match Responses::new(alloc, writer) {
        Ok(responses) => responses,
        Err(writer) => return Err(refused(reader, writer)),
    };
    match Requests::new(alloc, reader, reads) {
        Ok(requests) => Ok(Halves {
            requests,
            responses,
        }),
        Err(reader) => Err(refused(reader, responses.out.writer)),
    }
}

/// Takes the memory of both, and of the lane.
pub(crate) fn new_linked_halves<S: Source, R: PeerRead, W: PeerWrite>(
    alloc: Global,
    reader: R,
    writer: W,
    reads: u64,
) -> Result<LinkedHalves<S, R, W>, Served<R, W>>
    requires calls { R.calls reader + reads < 2 ^ 64 }
    requires failures { W.failures writer < 2 ^ 64 - 1 }
    ensures halves { IfOk result (λ linked. AreNewHalves reader writer reads linked.halves) }
    ensures lane { IfOk result (λ linked. IsLane linked.put linked.taken) }
    ensures put { IfOk result (λ linked. tickets_put linked.put ≡ []) }
    ensures taken { IfOk result (λ linked. tickets_taken linked.taken ≡ []) }
    ensures err { IfErr result (λ served. IsRefused reader writer served) }
{
    let halves = match new_halves(alloc, reader, writer, reads) {
        Ok(halves) => halves,
        Err(served) => return Err(served),
    };
    if let Ok((put, taken)) = lane(alloc) {
        return Ok(LinkedHalves { halves, put, taken });
    }
    let Halves {
        requests,
        responses,
    } = halves;
    Err(refused(requests.reader, responses.out.writer))
}

//! The request for the value of a key.
ghost use Rattle.std.specs.Prelude.{◌≡◌, ◌⊎◌, IfErr, IfOk};
ghost use Rattle.peer_http.specs.Lines.{lines_of};
ghost use Rattle.peer_http.specs.Requests.{IsRequest};
ghost use Rattle.peer_origin.specs.declared.fault.FetchFault.TheVariants as fault;
ghost use Rattle.peer_origin.specs.Targets.{target_of};

use crate::fault::FetchFault;
use crate::target::target;
use http1::WriteError;
use peer_http::{Field, Request};
use std::alloc::Global;

/// The request for a key of the origin with this `Host` and this prefix, with these fields, and the client that awaits the reply.
pub fn request(
    alloc: Global,
    host: &[u8],
    prefix: &[u8],
    fields: &[Field],
    key: &[u8],
) -> Result<Request, FetchFault>
    ensures request { IfOk result (IsRequest host.now (target_of prefix.now key.now) (lines_of fields.now)) }
    ensures refused { IfErr result (λ why. (why ≡ fault.Memory) ⊎ (why ≡ fault.Malformed)) }
{
    let Ok(target) = target(alloc, prefix, key) else {
        return Err(FetchFault::Memory);
    };
    match Request::get(alloc, host, &target, fields) {
        Ok(asked) => Ok(asked),
        Err(WriteError::OutOfMemory) => Err(FetchFault::Memory),
        Err(_) => Err(FetchFault::Malformed),
    }
}

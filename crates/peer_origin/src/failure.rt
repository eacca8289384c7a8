//! Why one try on one connection gave no value.
ghost use Rattle.std.specs.Prelude.{◌≡◌};
ghost use Rattle.peer_http.specs.declared.fault.ReplyFault.TheVariants as told;
ghost use Rattle.peer_origin.specs.declared.failure.Failure.TheVariants as fail;
ghost use Rattle.peer_origin.specs.Fetches.{failure_by};

use crate::fault::FetchFault;
use peer_http::ReplyFault;

/// Why a try on one connection gave no value.
#[derive(Clone, Copy, Debug, PartialEq, Eq)]
pub enum Failure {
    /// The connection ended, or failed, before a byte came.
    Silent,
    /// Another try would be of no use.
    Fetch(FetchFault),
}

/// What the fault of a reply is for a try.
pub fn failure_of(fault: ReplyFault) -> Failure
    ensures silent { result ≡ fail.Silent → fault ≡ told.Silent }
    ensures unheard { fault ≡ told.Silent → result ≡ fail.Silent }
    ensures by_fault { result ≡ failure_by fault }
{
    match fault {
        ReplyFault::Silent => Failure::Silent,
        ReplyFault::Lost => Failure::Fetch(FetchFault::Lost),
        ReplyFault::Malformed => Failure::Fetch(FetchFault::Malformed),
        ReplyFault::TooLong => Failure::Fetch(FetchFault::TooLong),
        ReplyFault::Status(status) => Failure::Fetch(FetchFault::Status(status)),
        ReplyFault::Memory => Failure::Fetch(FetchFault::Memory),
    }
}

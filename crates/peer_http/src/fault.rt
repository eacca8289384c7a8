//! Why there is no reply.
ghost use Rattle.std.specs.Prelude.{◌≡◌, ◌≢◌, ℕ};
ghost use Rattle.peer_http.specs.declared.fault.ReplyFault.TheVariants as told;

/// Why there is no reply.
#[derive(Clone, Copy, Debug, PartialEq, Eq)]
pub enum ReplyFault {
    /// The connection ended, or a read failed, before a byte came.
    Silent,
    /// The connection ended, or a read failed, within the reply.
    Lost,
    /// What came is no reply by the rules of `http1`, has a coding that was not asked for, or too many interim replies
    /// before it.
    Malformed,
    /// The body is longer than was allowed, or the reply took more reads or pieces than are made for one.
    TooLong,
    /// A reply of this status other than 200 came, whose body could not be read.
    Status(u16),
    /// Memory was refused.
    Memory,
}

/// Why a reply could not be read on.
#[derive(Clone, Copy, Debug, PartialEq, Eq)]
pub(crate) enum Fault {
    /// The connection ended, or a read failed.
    Lost,
    /// What came is no reply by the rules of `http1`, has a coding that was not asked for, or too many interim replies
    /// before it.
    Malformed,
    /// The body is longer than was allowed, or came in more pieces than are taken at once.
    TooLong,
    /// Memory was refused.
    Memory,
}

/// Why a name and a value are no field that may be added to a request.
#[derive(Clone, Copy, Debug, PartialEq, Eq)]
pub enum FieldFault {
    /// The name is no token.
    Name,
    /// A field of this name is set by whoever sends the request, or is one of the connection.
    Own,
    /// The value has a byte that may not stand in one.
    Value,
    /// Memory was refused.
    Memory,
}

/// What a fault within a reply is for the caller.
pub(crate) fn reply_fault(fault: Fault) -> ReplyFault
    ensures silent { result ≢ told.Silent }
    ensures status { (s : ℕ) → result ≢ told.Status s }
{
    match fault {
        Fault::Lost => ReplyFault::Lost,
        Fault::Malformed => ReplyFault::Malformed,
        Fault::TooLong => ReplyFault::TooLong,
        Fault::Memory => ReplyFault::Memory,
    }
}

/// What a fault within the body of a reply of this status is for the caller.
pub(crate) fn content_fault(fault: Fault, status: u16) -> ReplyFault
    ensures silent { result ≢ told.Silent }
    ensures status { (s : ℕ) → result ≡ told.Status s → (s ≡ status) × (s ≢ 200) }
{
    match fault {
        Fault::Lost | Fault::Malformed | Fault::TooLong if status != 200 => {
            ReplyFault::Status(status)
        }
        fault => reply_fault(fault),
    }
}

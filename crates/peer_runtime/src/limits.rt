//! How long a server waits for its clients, and how much it reads and discards: each number with its reason.
//!
//! It stands on the durations of `std` alone, and has numbers and no rule: who waits, and for what, stands where it is done.
use std::time::Duration;

/// How many bytes are read and discarded behind a closing reply: more than a full buffer of heads, and less than what
/// would let a client hold its connection by sending.
pub const MAX_SKIPPED: usize = 1_048_576;

/// How long a server waits. No duration may be zero, which nothing checks: a server in threads serves nobody then.
#[derive(Clone, Copy, Debug, PartialEq, Eq)]
pub struct Limits {
    /// How often a server looks how long its clients have been silent, slow or lingering: once a second costs nothing that
    /// can be measured, and is no longer than they may be.
    pub tick: Duration,
    /// How long a client may neither send nor take anything. An idle client of Go keeps a connection for 90 s; it opens
    /// another where the server closed one. On loops a client that waits for its value is not silent; in threads it may
    /// send nothing for so long, and is answered what it asked before it is closed.
    pub silence: Duration,
    /// The same where no more connections can be had, since idle ones would otherwise lock everyone out.
    pub silence_when_full: Duration,
    /// How long a client may send without a reply being sent, where no more connections can be had: one that drips bytes is
    /// not silent.
    pub request_when_full: Duration,
    /// How long a client may take nothing of what is to be sent.
    pub unread: Duration,
    /// How long is read on, and what comes discarded, behind a closing reply, so that the close does not reset what the
    /// client has not read yet (RFC 9112, section 9.6).
    pub linger: Duration,
    /// The pause behind a call of the system that failed, so that a server without free file descriptors does not spin. In
    /// threads each accept that fails uses one of its rounds up all the same.
    pub pause: Duration,
}

impl Limits {
    /// The limits of a server for everyone.
    pub fn usual() -> Limits {
        Limits {
            tick: Duration::from_secs(1),
            silence: Duration::from_secs(60),
            silence_when_full: Duration::from_secs(1),
            request_when_full: Duration::from_secs(10),
            unread: Duration::from_secs(10),
            linger: Duration::from_secs(1),
            pause: Duration::from_millis(10),
        }
    }
}

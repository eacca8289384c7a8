//! When a client last did something, and for how long it may do nothing.
ghost use Rattle.std.specs.Prelude.{◌≡◌, ◌↔◌, IsTrue, None, Some, unwrap_or};
ghost use Rattle.peer_site.specs.Activities.{IsLonger, IsOverdue, IsSilent, IsSlow, TakesNothing};

use crate::standing::Standing;
use peer_runtime::Limits;
use std::time::Duration;

/// What a client did last, each by the time since its loop began.
#[derive(Clone, Copy)]
pub struct Activity {
    // Bytes came or were taken, or its close began.
    last: Duration,
    // Since then the stream has taken none of what is to be sent, and when it last was tried.
    refused_since: Option<Duration>,
    refused: Duration,
    // Since then bytes have come with nothing sent behind them.
    unanswered: Option<Duration>,
}

// Whether it takes longer than the limit from the one time to the other.
fn is_longer(limit: Duration, since: Duration, until: Duration) -> bool
    ensures { IsTrue result ↔ IsLonger limit since until }
{
    until.saturating_sub(since).as_nanos() > limit.as_nanos()
}

impl Activity {
    /// The client came.
    pub fn new(now: Duration) -> Activity
        ensures last { result.last ≡ now }
        ensures refused { result.refused_since ≡ None }
        ensures unanswered { result.unanswered ≡ None }
    {
        Activity {
            last: now,
            refused_since: None,
            refused: now,
            unanswered: None,
        }
    }

    /// Bytes came.
    pub fn note_came(&mut self, now: Duration)
        ensures last { self.new.last ≡ now }
        ensures refused { (self.new.refused_since ≡ self.old.refused_since) × (self.new.refused ≡ self.old.refused) }
        ensures unanswered { self.new.unanswered ≡ Some (unwrap_or self.old.unanswered now) }
    {
        self.last = now;
        self.unanswered = self.unanswered.or(Some(now));
    }

    /// The stream took bytes.
    pub fn note_taken(&mut self, now: Duration)
        ensures last { self.new.last ≡ now }
        ensures refused { self.new.refused_since ≡ None }
        ensures unanswered { self.new.unanswered ≡ None }
    {
        self.last = now;
        self.refused_since = None;
        self.unanswered = None;
    }

    /// The stream takes none of what is to be sent.
    pub fn note_refused(&mut self, now: Duration)
        ensures last { self.new.last ≡ self.old.last }
        ensures refused { (self.new.refused_since ≡ Some (unwrap_or self.old.refused_since now)) × (self.new.refused ≡ now) }
        ensures unanswered { self.new.unanswered ≡ self.old.unanswered }
    {
        self.refused_since = self.refused_since.or(Some(now));
        self.refused = now;
    }

    /// Its close begins.
    pub fn note_close(&mut self, now: Duration)
        ensures { self.new.last ≡ now }
    {
        self.last = now;
    }

    // Whether it neither sends nor takes anything for too long.
    fn is_silent(&self, limits: &Limits, full: bool, now: Duration) -> bool
        ensures { IsTrue result ↔ IsSilent limits.now full now self.now }
    {
        is_longer(limits.silence, self.last, now)
            || full && is_longer(limits.silence_when_full, self.last, now)
    }

    // Whether it sends for too long without a reply being sent, where no more connections can be had.
    fn is_slow(&self, limits: &Limits, full: bool, now: Duration) -> bool
        ensures { IsTrue result ↔ IsSlow limits.now full now self.now }
    {
        match self.unanswered {
            Some(since) => full && is_longer(limits.request_when_full, since, now),
            None => false,
        }
    }

    // Whether it takes nothing for too long, by when that was tried: the time in which the server itself stood still does not
    // count.
    fn takes_nothing(&self, limits: &Limits) -> bool
        ensures { IsTrue result ↔ TakesNothing limits.now self.now }
    {
        match self.refused_since {
            Some(since) => is_longer(limits.unread, since, self.refused),
            None => false,
        }
    }

    /// Whether it is to be given up, where it does this at the moment. `full` says that no more connections can be had.
    pub fn is_overdue(&self, limits: &Limits, full: bool, now: Duration, standing: Standing) -> bool
        ensures { IsTrue result ↔ IsOverdue limits.now full now self.now standing }
    {
        match standing {
            Standing::Lingers => is_longer(limits.linger, self.last, now),
            Standing::HasOutput => self.takes_nothing(limits),
            Standing::Waits => false,
            Standing::IsReady => self.is_slow(limits, full, now),
            Standing::Idle => self.is_silent(limits, full, now) || self.is_slow(limits, full, now),
        }
    }
}

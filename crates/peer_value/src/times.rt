//! When what befell a value that is fetched.
ghost use Rattle.std.specs.Prelude.{◌≡◌, ◌-◌, None, Some};
ghost use Rattle.std.specs.Duration.{as_nanos};
ghost use Rattle.peer_value.specs.Spans.{at_last, first_of};

use std::time::Duration;

/// When what befell a value, each by the time since its thread began.
#[derive(Clone, Copy, Debug, PartialEq, Eq)]
pub struct Times {
    /// Its job was taken.
    pub taken: Duration,
    /// It was under way. None if it was given up before, or waits.
    pub begun: Option<Duration>,
    /// It had its last connection, which was made for it or was kept. None if it had none.
    pub connected: Option<Duration>,
    /// Some of its reply had come on that. None if none had, or if all of it came at once.
    pub answered: Option<Duration>,
}

/// How long a value took, and each part of that: one follows the other. A part that was not over lasted until the end.
#[derive(Clone, Copy, Debug, PartialEq, Eq)]
pub struct Spans {
    /// Until it was under way.
    pub queue: Duration,
    /// Until it had a connection: nothing if that was a kept one.
    pub connect: Duration,
    /// Until some of its reply had come.
    pub first_byte: Duration,
    /// All of it.
    pub whole: Duration,
}

// What was noted first.
fn first_of(before: Option<Duration>, now: Duration) -> Option<Duration>
    ensures { result ≡ first_of before now }
{
    match before {
        Some(before) => Some(before),
        None => Some(now),
    }
}

// When that was, or the end, if it was not.
fn at_last(time: Option<Duration>, end: Duration) -> Duration
    ensures { as_nanos result ≡ at_last time end }
{
    match time {
        Some(time) => time,
        None => end,
    }
}

impl Times {
    /// The job of a value was taken.
    pub(crate) fn taken(now: Duration) -> Times
        ensures taken { result.taken ≡ now }
        ensures none { (result.begun ≡ None) × (result.connected ≡ None) × (result.answered ≡ None) }
    {
        Times {
            taken: now,
            begun: None,
            connected: None,
            answered: None,
        }
    }

    /// It was under way.
    pub(crate) fn begun(self, now: Duration) -> Times
        ensures taken { result.taken ≡ self.taken }
        ensures begun { result.begun ≡ Some now }
        ensures later { (result.connected ≡ self.connected) × (result.answered ≡ self.answered) }
    {
        Times {
            begun: Some(now),
            ..self
        }
    }

    /// It had a connection, unless that was noted before.
    pub(crate) fn connected(self, now: Duration) -> Times
        ensures before { (result.taken ≡ self.taken) × (result.begun ≡ self.begun) }
        ensures connected { result.connected ≡ first_of self.connected now }
        ensures answered { result.answered ≡ self.answered }
    {
        Times {
            connected: first_of(self.connected, now),
            ..self
        }
    }

    /// Some of its reply had come, unless that was noted before.
    pub(crate) fn answered(self, now: Duration) -> Times
        ensures before { (result.taken ≡ self.taken) × (result.begun ≡ self.begun) }
        ensures connected { result.connected ≡ self.connected }
        ensures answered { result.answered ≡ first_of self.answered now }
    {
        Times {
            answered: first_of(self.answered, now),
            ..self
        }
    }

    /// It is to have another connection, on which nothing has come.
    pub(crate) fn again(self) -> Times
        ensures before { (result.taken ≡ self.taken) × (result.begun ≡ self.begun) }
        ensures none { (result.connected ≡ None) × (result.answered ≡ None) }
    {
        Times {
            connected: None,
            answered: None,
            ..self
        }
    }

    /// How long it took until this end.
    pub fn spans(self, end: Duration) -> Spans
        ensures queue { as_nanos result.queue ≡ at_last self.begun end - as_nanos self.taken }
        ensures connect { as_nanos result.connect ≡ at_last self.connected end - at_last self.begun end }
        ensures first_byte { as_nanos result.first_byte ≡ at_last self.answered end - at_last self.connected end }
        ensures whole { as_nanos result.whole ≡ as_nanos end - as_nanos self.taken }
    {
        let begun = at_last(self.begun, end);
        let connected = at_last(self.connected, end);
        let answered = at_last(self.answered, end);
        Spans {
            queue: begun.saturating_sub(self.taken),
            connect: connected.saturating_sub(begun),
            first_byte: answered.saturating_sub(connected),
            whole: end.saturating_sub(self.taken),
        }
    }
}

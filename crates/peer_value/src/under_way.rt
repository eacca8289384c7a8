//! A value under way, or one that waits to be: a job, the numbered endpoint of its origin, and the fetch.
ghost use Rattle.std.specs.Prelude.{◌≡◌, ◌≢◌, ◌+◌, ◌≤◌, ◌↔◌, ◌⊎◌, ◌++◌, [], ◌∷◌, Some, false, true, drop, length};
ghost use Rattle.std.specs.Prelude.{Err, IfErr, IfOk, IfSome, IsErr, IsTrue, None};
ghost use Rattle.peer_http.specs.Requests.{Awaits, IsOneRequest};
ghost use Rattle.peer_origin.specs.declared.failure.Failure.TheVariants as fail;
ghost use Rattle.peer_origin.specs.declared.fault.FetchFault.TheVariants as fault;
ghost use Rattle.peer_value.specs.Endpoints.{IsOfGroup};
ghost use Rattle.peer_origin.specs.Endpoints.{request_at};
ghost use Rattle.peer_value.specs.Fetchings.{use_by};
ghost use Rattle.peer_value.specs.Spans.{first_of};
ghost use Rattle.peer_value.specs.Values.{uses_of, IsFailureOf, IsFree, IsRefusedFor, IsSameTry, IsSecondTry, IsToldBy, IsUnused};
ghost use Rattle.peer_value.specs.Values.{IsValueOf};

use crate::done::Done;
use crate::endpoints::Numbered;
use crate::fetching::{Answer, Fetching};
use crate::times::Times;
use peer_fill::TakenJob;
use peer_http::Request;
use peer_origin::{Endpoint, Failure, FetchFault, request};
use peer_source::Source;
use std::alloc::Global;
use std::time::Duration;

/// A value under way: at the endpoint of the group of its job, by the request for its key.
#[derive(Drop)]
pub struct UnderWay<'a, S: Source> {
    at: Numbered<'a>,
    job: TakenJob<S>,
    fetching: Fetching,
    due: Duration,
    times: Times,
    ghost own: { IsOfGroup at job.place.group },
    ghost asks: { fetching.request.items ≡ request_at at.endpoint.now job.place.key },
}

// The request for a key at an endpoint.
fn request_of(alloc: Global, endpoint: &Endpoint, key: &[u8]) -> Result<Request, FetchFault>
    ensures request { IfOk result (λ asked. asked.bytes.items ≡ request_at endpoint.now key.now) }
    ensures asks { IfOk result (λ asked. Awaits asked.client × ∥ IsOneRequest asked.bytes.items ∥₁) }
    ensures refused { IfErr result (λ why. (why ≡ fault.Memory) ⊎ (why ≡ fault.Malformed)) }
{
    let fields = endpoint.own.fields.as_slice();
    request(alloc, &endpoint.host, &endpoint.prefix, fields, key)
}

impl<'a, S: Source> UnderWay<'a, S> {
    ghost use Rattle.peer_value.specs.UnderWays.{HasSameJob, IsAnswerTo, IsAsked, IsDoneOf, LeavesFree, due_of, number_of};

    /// The fetch of a job's value begins, whose job is taken now. It is given up when it is due.
    pub fn begin(
        alloc: Global,
        at: Numbered<'a>,
        job: TakenJob<S>,
        now: Duration,
        due: Duration,
    ) -> Result<UnderWay<'a, S>, Done<'a, S>>
        requires { IsOfGroup at job.place.group }
        ensures kept { IfOk result (λ u. (u.at ≡ at.entry) × (u.job ≡ job) × (u.due ≡ due)) }
        ensures times { IfOk result (λ u. (u.times.taken ≡ now) × (u.times.begun ≡ None)) }
        ensures unused { IfOk result (λ u. uses_of u.fetching ≡ use_by u.fetching.request.items 0 [] false ∷ []) }
        ensures given_back { IfErr result (λ d. (d.endpoint ≡ at.entry.endpoint) × (d.job ≡ job) × IsErr d.got) }
        ensures refused { IfErr result (λ d. IfErr d.got (λ why. (why ≡ fault.Memory) ⊎ (why ≡ fault.Malformed))) }
    {
        match request_of(alloc, at.endpoint, job.key()) {
            Ok(asked) => Ok(UnderWay {
                at,
                job,
                fetching: Fetching::new(alloc, asked),
                due,
                times: Times::taken(now),
            }),
            Err(why) => Err(Done::failed(at.endpoint, job, why, Times::taken(now))),
        }
    }

    /// The fetch begins anew, on a new connection, where this may be.
    pub fn again(self, alloc: Global) -> Result<UnderWay<'a, S>, Done<'a, S>>
        ensures kept { IfOk result (HasSameJob self.entry) }
        ensures second { IfOk result (λ u. IsSecondTry self.entry.fetching u.fetching) }
        ensures refused { IfErr result (λ d. IfErr d.got (IsRefusedFor self.entry.fetching)) }
        ensures given_back { IfErr result (λ d. IsDoneOf self.entry d × IsErr d.got) }
    {
        let UnderWay {
            at,
            job,
            mut fetching,
            due,
            times,
        } = self;
        let asked = match request_of(alloc, at.endpoint, job.key()) {
            Ok(asked) => asked,
            Err(why) => return Err(Done::failed(at.endpoint, job, why, times)),
        };
        if fetching.again(alloc, asked) {
            return Ok(UnderWay {
                at,
                job,
                fetching,
                due,
                times: times.again(),
            });
        }
        Err(Done::failed(at.endpoint, job, FetchFault::Lost, times))
    }

    /// The same, given up at another time.
    pub fn put_off(self, due: Duration) -> UnderWay<'a, S>
        ensures kept { (result.at ≡ self.entry.at) × (result.job ≡ self.entry.job) × (result.fetching ≡ self.entry.fetching) }
        ensures due { result.due ≡ due }
        ensures times { result.times ≡ self.entry.times }
    {
        let UnderWay {
            at,
            job,
            fetching,
            times,
            ..
        } = self;
        UnderWay {
            at,
            job,
            fetching,
            due,
            times,
        }
    }

    /// It is under way by now.
    pub fn note_begun(&mut self, now: Duration)
        ensures kept { HasSameJob self.old self.new }
        ensures fetching { self.new.fetching ≡ self.old.fetching }
        ensures times { (self.new.times.taken ≡ self.old.times.taken) × (self.new.times.begun ≡ Some now) }
    {
        self.times = self.times.begun(now);
    }

    /// It has a connection by now, if that was not noted before.
    pub fn note_connected(&mut self, now: Duration)
        ensures kept { HasSameJob self.old self.new }
        ensures fetching { self.new.fetching ≡ self.old.fetching }
        ensures times { self.new.times.connected ≡ first_of self.old.times.connected now }
    {
        self.times = self.times.connected(now);
    }

    /// Notes if some of its reply has come by now, unless that was noted before.
    pub fn note_progress(&mut self, now: Duration)
        ensures kept { HasSameJob self.old self.new }
        ensures fetching { self.new.fetching ≡ self.old.fetching }
        ensures silent { self.old.fetching.receiving.came.bytes ≡ [] → self.new.times ≡ self.old.times }
        ensures came { self.old.fetching.receiving.came.bytes ≢ [] → self.new.times.answered ≡ first_of self.old.times.answered now }
    {
        if !self.fetching.is_silent() {
            self.times = self.times.answered(now);
        }
    }

    /// The endpoint of its origin.
    pub fn endpoint(&self) -> &'a Endpoint
        ensures { result ≡ self.now.at.endpoint }
    {
        self.at.endpoint
    }

    /// The number of that endpoint.
    pub fn number(&self) -> usize
        ensures { result ≡ number_of self.now }
    {
        self.at.number
    }

    /// When it is given up.
    pub fn due(&self) -> Duration
        ensures { result ≡ due_of self.now }
    {
        self.due
    }

    /// What is to be sent.
    pub fn unsent(&self) -> &[u8]
        ensures bytes { result.now ≡ drop self.now.fetching.sent self.now.fetching.request.items }
        ensures left { length result.now + self.now.fetching.sent ≡ length self.now.fetching.request.items }
    {
        self.fetching.unsent()
    }

    /// So many bytes were sent.
    pub fn sent(&mut self, n: usize)
        requires { self.old.fetching.sent + n ≤ length self.old.fetching.request.items }
        ensures kept { HasSameJob self.old self.new }
        ensures sent { self.new.fetching.sent ≡ self.old.fetching.sent + n }
        ensures request { self.new.fetching.request.items ≡ self.old.fetching.request.items }
        ensures came { self.new.fetching.receiving.came.bytes ≡ self.old.fetching.receiving.came.bytes }
        ensures ended { self.new.fetching.ended ≡ self.old.fetching.ended }
        ensures first { self.new.fetching.first ≡ self.old.fetching.first }
    {
        self.fetching.sent(n);
    }

    /// Whether the whole request was sent.
    pub fn is_sent(&self) -> bool
        ensures { IsTrue result ↔ IsAsked self.now }
    {
        self.fetching.is_sent()
    }

    /// Whether nothing was sent yet in this try, and nothing came.
    pub fn is_unused(&self) -> bool
        ensures { IsTrue result → IsUnused self.now.fetching }
    {
        self.fetching.is_unused()
    }

    /// Bytes come. Gives the answer, once the reply is whole.
    pub fn receive(&mut self, bytes: &[u8]) -> Result<Option<Answer>, Failure>
        requires { IsAsked self.old }
        ensures kept { HasSameJob self.old self.new }
        ensures same { IsSameTry self.old.fetching self.new.fetching }
        ensures came { self.new.fetching.receiving.came.bytes ≡ self.old.fetching.receiving.came.bytes ++ bytes.now }
        ensures ended { self.new.fetching.ended ≡ self.old.fetching.ended }
        ensures answer { IfOk result (λ given. IfSome given (IsAnswerTo self.new)) }
        ensures silent { result ≢ Err fail.Silent }
        ensures failure { IfErr result (IsFailureOf self.new.fetching) }
    {
        self.fetching.receive(bytes)
    }

    /// The connection ended. Gives the answer, where the reply runs until then.
    pub fn end(&mut self) -> Result<Answer, Failure>
        requires { IsAsked self.old }
        ensures kept { HasSameJob self.old self.new }
        ensures same { IsSameTry self.old.fetching self.new.fetching }
        ensures came { self.new.fetching.receiving.came.bytes ≡ self.old.fetching.receiving.came.bytes }
        ensures ended { self.new.fetching.ended ≡ true }
        ensures answer { IfOk result (IsAnswerTo self.new) }
        ensures silent { result ≡ Err fail.Silent → self.new.fetching.receiving.came.bytes ≡ [] }
        ensures failure { IfErr result (IsFailureOf self.new.fetching) }
    {
        self.fetching.end()
    }

    /// Why there is no value, where the connection failed.
    pub fn cut(&self) -> Failure
        ensures silent { result ≡ fail.Silent ↔ (self.now.fetching.receiving.came.bytes ≡ []) }
        ensures failure { IsFailureOf self.now.fetching result }
    {
        self.fetching.cut()
    }

    /// The job, with what was fetched for it.
    pub fn done(self, got: Result<Vec<u8>, FetchFault>) -> Done<'a, S>
        requires found { IfOk got (IsValueOf self.fetching) }
        requires told { IfErr got (IsToldBy (Some self.fetching)) }
        ensures kept { IsDoneOf self.entry result }
        ensures got { (result.got ≡ got) × (result.by ≡ Some self.entry.fetching) }
        ensures free { IsFree self.entry.fetching → LeavesFree result }
        ensures times { result.times ≡ self.entry.times }
    {
        let UnderWay {
            at,
            job,
            fetching,
            times,
            ..
        } = self;
        Done::fetched(at.endpoint, job, got, fetching, times)
    }
}

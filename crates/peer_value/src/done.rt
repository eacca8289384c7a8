//! A job whose value was fetched, or was not, and what that is for a pool.
ghost use Rattle.std.specs.Prelude.{◌≡◌, ◌≤◌, length, Err, IfErr, IfOk, IfSome, IsSomeAnd, None, Some};
ghost use Rattle.peer_view.specs.Sinks.{MAX_VALUE};
ghost use Rattle.std.proofs.Props.{props};
ghost use Rattle.peer_source.specs.Answers.{Failed, Found, too_long_text};
ghost use Rattle.peer_source.specs.Outcomes.{answer_of};
ghost use Rattle.peer_origin.specs.Endpoints.{request_at};
ghost use Rattle.peer_origin.specs.Fetched.{IsFetchedAnswer};
ghost use Rattle.peer_origin.specs.Texts.{text_of};
ghost use Rattle.peer_value.specs.Values.{AnswersBy, IsToldBy, IsValueOf};

use crate::fetching::Fetching;
use crate::times::Times;
use peer_fill::TakenJob;
use peer_origin::{Endpoint, FetchFault, Wires, get_fault};
use peer_source::{GetFault, Outcome, Source, too_long_text};
use peer_view::ByteView;
use std::alloc::Global;

/// A job, with the value that was fetched for it from an endpoint, or why there is none.
#[derive(Drop)]
pub struct Done<'a, S: Source> {
    endpoint: &'a Endpoint,
    job: TakenJob<S>,
    got: Result<Vec<u8>, FetchFault>,
    // The fetch. None where it could not begin, or not begin anew.
    by: Option<Fetching>,
    times: Times,
    ghost asked: { IfSome by (λ f. f.request.items ≡ request_at endpoint.now job.place.key) } by { Prim.hlevel props },
    ghost found: { IfOk got (λ v. IsSomeAnd by (λ f. IsValueOf f v)) } by { Prim.hlevel props },
    ghost told: { ∥ IfErr got (IsToldBy by) ∥₁ },
}

// The failure with this text.
fn failed(text: Vec<u8>) -> Outcome
    ensures { AnswersBy (Failed text.items) (answer_of result) }
{
    match ByteView::from_vec(text) {
        Ok(text) => Outcome::Failed(text),
        Err(_) => Outcome::NoMemory,
    }
}

// The value.
fn found(value: Vec<u8>) -> Outcome
    ensures { AnswersBy (Found value.items) (answer_of result) }
{
    match ByteView::from_vec(value) {
        Ok(value) => Outcome::Found(value),
        Err(_) => Outcome::NoMemory,
    }
}

// The answer of a fault.
fn fault(alloc: Global, fault: FetchFault) -> Outcome
    ensures { AnswersBy (Failed (text_of fault)) (answer_of result) }
{
    match get_fault(alloc, fault) {
        GetFault::Text(text) => failed(text),
        GetFault::TooLong => Outcome::Failed(too_long_text()),
        GetFault::Memory => Outcome::NoMemory,
    }
}

// What was fetched, as the answer of a source over origins.
fn outcome_of(alloc: Global, got: Result<Vec<u8>, FetchFault>) -> Outcome
    requires { IfOk got (λ v. length v.items ≤ MAX_VALUE) }
    ensures found { IfOk got (λ v. AnswersBy (Found v.items) (answer_of result)) }
    ensures failed { IfErr got (λ why. AnswersBy (Failed (text_of why)) (answer_of result)) }
{
    match got {
        Ok(value) => found(value),
        Err(why) => fault(alloc, why),
    }
}

impl<'a, S: Source> Done<'a, S> {
    ghost use Rattle.peer_value.specs.UnderWays.{IsDoneOn};

    /// The endpoint that it was fetched at.
    pub fn endpoint(&self) -> &'a Endpoint
        ensures { result ≡ self.now.endpoint }
    {
        self.endpoint
    }

    /// A job for which nothing was fetched from this endpoint, since its fetch could not begin, or not begin anew.
    pub(crate) fn failed(
        endpoint: &'a Endpoint,
        job: TakenJob<S>,
        why: FetchFault,
        times: Times,
    ) -> Done<'a, S>
        requires { IsToldBy None why }
        ensures kept { (result.endpoint ≡ endpoint.entry) × (result.job ≡ job) }
        ensures fault { result.got ≡ Err why }
        ensures times { result.times ≡ times }
    {
        Done {
            endpoint,
            job,
            got: Err(why),
            by: None,
            times,
        }
    }

    /// A job, with what this fetch found for it at this endpoint.
    pub(crate) fn fetched(
        endpoint: &'a Endpoint,
        job: TakenJob<S>,
        got: Result<Vec<u8>, FetchFault>,
        by: Fetching,
        times: Times,
    ) -> Done<'a, S>
        requires asked { by.request.items ≡ request_at endpoint.now job.place.key }
        requires found { IfOk got (IsValueOf by) }
        requires told { IfErr got (IsToldBy (Some by)) }
        ensures kept { (result.endpoint ≡ endpoint.entry) × (result.job ≡ job) }
        ensures got { (result.got ≡ got) × (result.by ≡ Some by) }
        ensures times { result.times ≡ times }
    {
        Done {
            endpoint,
            job,
            got,
            by: Some(by),
            times,
        }
    }

    /// When what befell it.
    pub fn times(&self) -> Times
        ensures { result ≡ self.now.times }
    {
        self.times
    }

    /// Why there is no value.
    pub fn fault(&self) -> Option<FetchFault>
        ensures none { IfOk self.now.got (λ _. result ≡ None) }
        ensures some { IfErr self.now.got (λ why. result ≡ Some why) }
    {
        match &self.got {
            Ok(_) => None,
            Err(why) => Some(*why),
        }
    }

    /// The job, and what was fetched for it as the answer of a source over origins: by the request for the job's own key at this
    /// endpoint, on a connection of this network.
    pub fn settle<H: Wires>(self, alloc: Global) -> (TakenJob<S>, Outcome)
        requires { IsDoneOn H.carried self }
        ensures job { result.0 ≡ self.entry.job }
        ensures found { IfOk self.entry.got (λ v. AnswersBy (Found v.items) (answer_of result.1)) }
        ensures failed { IfErr self.entry.got (λ why. AnswersBy (Failed (text_of why)) (answer_of result.1)) }
        ensures fetched { IfSome (answer_of result.1)
            (IsFetchedAnswer H.carried (request_at self.entry.endpoint.now self.entry.job.place.key)) }
    {
        let Done { job, got, .. } = self;
        (job, outcome_of(alloc, got))
    }
}

//! A fetch as a state, without input or output: a request on a connection, the bytes that come behind it, and the one
//! second try.
//!
//! It stands on the reply as a state of `peer_http`. It promises that a value which is found is the content of a whole
//! reply with status 200, on bytes that came on a connection on which the whole request was sent, that a whole reply with
//! another status is told by that, that two requests are sent at most, the second behind a connection on which nothing came,
//! and that a connection may be asked again only where all that came on it is one reply.
ghost use Rattle.std.specs.Prelude.{◌≡◌, ◌≢◌, ◌+◌, ◌≤◌, ◌↔◌, ◌++◌, [], drop, false, length, true};
ghost use Rattle.std.specs.Prelude.{Err, IfErr, IfOk, IfSome, IsFalse, IsTrue, None};
ghost use Rattle.std.proofs.Props.{props};
ghost use Rattle.peer_view.specs.Sinks.{MAX_VALUE};
ghost use Rattle.peer_http.specs.Requests.{Awaits, IsOneRequest};
ghost use Rattle.peer_origin.specs.declared.failure.Failure.TheVariants as fail;
ghost use Rattle.peer_origin.specs.declared.fault.FetchFault.TheVariants as fault;
ghost use Rattle.peer_value.specs.Fetchings.{GoesOnAnew};

use http1::Client;
use peer_http::{Receiving, Reply, Request};
use peer_origin::{Failure, FetchFault, failure_of};
use peer_view::MAX_VALUE;
use std::alloc::Global;

/// A first try on which nothing came: how much of the request was sent, and whether the connection's end was told.
#[derive(Clone, Copy, Debug)]
pub(crate) struct Silence {
    sent: usize,
    ended: bool,
}

/// What a whole reply says.
#[derive(Drop)]
pub struct Answer {
    /// The value, or why there is none.
    pub value: Result<Vec<u8>, FetchFault>,
    /// Whether another request may be sent on the connection.
    pub keeps: bool,
}

/// A fetch.
#[derive(Drop)]
pub struct Fetching {
    request: Vec<u8>,
    sent: usize,
    receiving: Receiving,
    ended: bool,
    first: Option<Silence>,
    ghost asks: { ∥ IsOneRequest request.items ∥₁ },
    ghost sent_within: { sent ≤ length request.items },
    ghost most: { receiving.most ≡ MAX_VALUE },
    ghost heard: { receiving.came.bytes ≢ [] → length request.items ≤ sent } by { Prim.hlevel props },
}

// What a reply says.
fn answer_of(reply: Reply) -> Answer
    ensures value { IfOk result.value (λ v. (v.items ≡ reply.value.items) × (reply.status ≡ 200)) }
    ensures status { IfErr result.value (λ why. (why ≡ fault.Status reply.status) × (reply.status ≢ 200)) }
    ensures keeps { result.keeps ≡ reply.keeps }
{
    let Reply {
        status,
        value,
        keeps,
    } = reply;
    let value = if status == 200 {
        Ok(value)
    } else {
        Err(FetchFault::Status(status))
    };
    Answer { value, keeps }
}

// The reply that is awaited, its content within the limit of a value.
fn receiving(alloc: Global, client: Client) -> Receiving
    requires { Awaits client }
    ensures came { result.came.bytes ≡ [] }
    ensures most { result.most ≡ MAX_VALUE }
{
    Receiving::new(alloc, client, MAX_VALUE)
}

impl Fetching {
    ghost use Rattle.peer_value.specs.Values.{IsAnswerOf, IsFailureOf, IsSameTry, IsSent, IsUnused, MayGoOnAnew, uses_of};

    /// Nothing of the request was sent.
    pub fn new(alloc: Global, asked: Request) -> Fetching
        requires awaits { Awaits asked.client }
        requires one { ∥ IsOneRequest asked.bytes.items ∥₁ }
        ensures request { result.request.items ≡ asked.bytes.items }
        ensures sent { result.sent ≡ 0 }
        ensures came { result.receiving.came.bytes ≡ [] }
        ensures ended { result.ended ≡ false }
        ensures first { result.first ≡ None }
    {
        let Request { client, bytes } = asked;
        Fetching {
            request: bytes,
            sent: 0,
            receiving: receiving(alloc, client),
            ended: false,
            first: None,
        }
    }

    /// What is to be sent.
    pub fn unsent(&self) -> &[u8]
        ensures { result.now ≡ drop self.now.sent self.now.request.items }
    {
        &self.request[self.sent..]
    }

    /// So many bytes were sent.
    pub fn sent(&mut self, n: usize)
        requires { self.old.sent + n ≤ length self.old.request.items }
        ensures sent { self.new.sent ≡ self.old.sent + n }
        ensures request { self.new.request.items ≡ self.old.request.items }
        ensures came { self.new.receiving.came.bytes ≡ self.old.receiving.came.bytes }
        ensures ended { self.new.ended ≡ self.old.ended }
        ensures first { self.new.first ≡ self.old.first }
    {
        self.sent += n;
    }

    /// Whether the whole request was sent. No byte may come before it was.
    pub fn is_sent(&self) -> bool
        ensures { IsTrue result ↔ IsSent self.now }
    {
        self.sent >= self.request.len()
    }

    /// Whether nothing was sent yet in this try, and nothing came.
    pub fn is_unused(&self) -> bool
        ensures { IsTrue result → IsUnused self.now }
    {
        self.sent == 0 && self.receiving.is_silent() && !self.ended
    }

    /// Whether nothing came in this try.
    pub fn is_silent(&self) -> bool
        ensures { IsTrue result ↔ (self.now.receiving.came.bytes ≡ []) }
    {
        self.receiving.is_silent()
    }

    /// Bytes come. Gives the answer, once the reply is whole.
    pub fn receive(&mut self, bytes: &[u8]) -> Result<Option<Answer>, Failure>
        requires whole { IsSent self.old }
        ensures same { IsSameTry self.old self.new }
        ensures came { self.new.receiving.came.bytes ≡ self.old.receiving.came.bytes ++ bytes.now }
        ensures ended { self.new.ended ≡ self.old.ended }
        ensures answer { IfOk result (λ given. IfSome given (IsAnswerOf self.new)) }
        ensures silent { result ≢ Err fail.Silent }
        ensures failure { IfErr result (IsFailureOf self.new) }
    {
        match self.receiving.receive(bytes) {
            Ok(Some(reply)) => Ok(Some(answer_of(reply))),
            Ok(None) => Ok(None),
            Err(fault) => Err(failure_of(fault)),
        }
    }

    /// The connection ended. Gives the answer, where the reply runs until then.
    pub fn end(&mut self) -> Result<Answer, Failure>
        requires whole { IsSent self.old }
        ensures same { IsSameTry self.old self.new }
        ensures came { self.new.receiving.came.bytes ≡ self.old.receiving.came.bytes }
        ensures ended { self.new.ended ≡ true }
        ensures answer { IfOk result (IsAnswerOf self.new) }
        ensures silent { result ≡ Err fail.Silent → self.new.receiving.came.bytes ≡ [] }
        ensures failure { IfErr result (IsFailureOf self.new) }
    {
        self.ended = true;
        match self.receiving.end() {
            Ok(reply) => Ok(answer_of(reply)),
            Err(fault) => Err(failure_of(fault)),
        }
    }

    /// Why there is no value, where the connection failed.
    pub fn cut(&self) -> Failure
        ensures silent { result ≡ fail.Silent ↔ (self.now.receiving.came.bytes ≡ []) }
        ensures failure { IsFailureOf self.now result }
    {
        failure_of(self.receiving.cut())
    }

    /// Begins anew, for a second try. Whether it may: this is the first, and nothing came.
    pub fn again(&mut self, alloc: Global, asked: Request) -> bool
        requires awaits { Awaits asked.client }
        requires request { asked.bytes.items ≡ self.old.request.items }
        ensures request { self.new.request.items ≡ self.old.request.items }
        ensures whether { IsTrue result ↔ MayGoOnAnew self.old }
        ensures uses { IsTrue result → GoesOnAnew self.old.request.items (uses_of self.old) (uses_of self.new) }
        ensures kept { IsFalse result → self.new ≡ self.old }
    {
        if self.first.is_some() || !self.receiving.is_silent() {
            return false;
        }
        self.first = Some(Silence {
            sent: self.sent,
            ended: self.ended,
        });
        self.receiving = receiving(alloc, asked.client);
        self.sent = 0;
        self.ended = false;
        true
    }
}

//! A reply as a state, without input: its bytes come, and once it is whole it is given.
//!
//! It stands on `heads` and `content`, and on a history of the bytes that came, which only contracts see.
//! It promises of a reply that is given that the bytes that came begin with it, and, where another request may follow on the
//! connection, that they are this reply and nothing behind it; and of a status that is told as a fault that they have its head.
ghost use Rattle.std.specs.Prelude.{◌≡◌, ◌≢◌, ◌≤◌, ◌↔◌, ℕ, ◌++◌, [], length, true, Err, IfErr, IfOk, IfSome, IsTrue, Ok};
ghost use Rattle.http1.specs.Client.{IsIdle};
ghost use Rattle.peer_http.specs.Requests.{Awaits};
ghost use Rattle.peer_http.specs.Receivings.{IsReadTo, IsStanding, MayAskAgain, ReadsBody};
ghost use Rattle.peer_http.specs.Replies.{HasHead, IsReply, IsToldOf};
ghost use Rattle.peer_http.specs.declared.stage.Stage.TheVariants as at;
ghost use Rattle.peer_http.specs.declared.fault.ReplyFault.TheVariants as told;

use crate::content::{ends_here, room_for, take_content};
use crate::fault::{Fault, ReplyFault, content_fault, reply_fault};
use crate::heads::find_head;
use crate::intake::Intake;
use crate::reply::Reply;
use crate::stage::Stage;
use http1::Client;
use httparse::spans::EMPTY_HEADER_SPAN;
use peer_view::History;
use std::alloc::Global;
use std::mem;

// How many fields a head, or a trailer section, may have.
const FIELDS: usize = 128;

/// A reply that is read as its bytes come.
#[derive(Drop)]
pub struct Receiving {
    alloc: Global,
    client: Client,
    intake: Intake,
    stage: Stage,
    value: Vec<u8>,
    most: usize,
    silent: bool,
    came: History,
    ghost within: { length value.items ≤ most },
    ghost silence: { IsTrue silent ↔ came.bytes ≡ [] },
    ghost awaits: { stage ≡ at.Head → Awaits client },
    ghost head: { (s : ℕ) → stage ≡ at.Content s → ∥ HasHead came.bytes s ∥₁ },
    ghost reads: { ∥ IsReadTo came.bytes stage client intake value.items ∥₁ },
}

impl Receiving {
    /// The reply that a client awaits. No byte of it came. Its body may have so many bytes.
    pub fn new(alloc: Global, client: Client, most: usize) -> Receiving
        requires { Awaits client }
        ensures came { result.came.bytes ≡ [] }
        ensures most { result.most ≡ most }
    {
        Receiving {
            alloc,
            client,
            intake: Intake::new(alloc),
            stage: Stage::Head,
            value: Vec::new(alloc),
            most,
            silent: true,
            came: History::none(),
        }
    }

    // Puts bytes behind those that came.
    fn push(&mut self, bytes: &[u8]) -> Result<(), ReplyFault>
        ensures came { self.new.came.bytes ≡ self.old.came.bytes ++ bytes.now }
        ensures most { self.new.most ≡ self.old.most }
        ensures silent { result ≢ Err told.Silent }
        ensures told { IfErr result (IsToldOf self.new.came.bytes) }
    {
        self.silent &= bytes.is_empty();
        self.came = self.came.and(bytes);
        match self.intake.push(bytes) {
            Ok(()) => Ok(()),
            Err(_) => {
                self.stage = Stage::Over;
                Err(ReplyFault::Memory)
            }
        }
    }

    // Takes the heads that came.
    fn read_head(&mut self) -> Result<(), ReplyFault>
        ensures came { self.new.came.bytes ≡ self.old.came.bytes }
        ensures most { self.new.most ≡ self.old.most }
        ensures silent { result ≢ Err told.Silent }
        ensures told { IfErr result (IsToldOf self.new.came.bytes) }
    {
        let Stage::Head = self.stage else {
            return Ok(());
        };
        let mut spans = [EMPTY_HEADER_SPAN; FIELDS];
        match find_head(&mut self.client, &mut self.intake, &mut spans) {
            Ok(None) => Ok(()),
            Ok(Some(status)) => match room_for(self.alloc, &self.client, self.most) {
                Ok(value) => {
                    self.value = value;
                    self.stage = Stage::Content(status);
                    Ok(())
                }
                Err(fault) => {
                    self.stage = Stage::Over;
                    Err(content_fault(fault, status))
                }
            },
            Err(fault) => {
                self.stage = Stage::Over;
                Err(reply_fault(fault))
            }
        }
    }

    // Gives the reply of this status, of which the whole body was taken.
    fn give(&mut self, status: u16) -> Reply
        requires { self.old.stage ≡ at.Over }
        ensures came { self.new.came.bytes ≡ self.old.came.bytes }
        ensures most { self.new.most ≡ self.old.most }
        ensures client { self.new.client ≡ self.old.client }
        ensures status { result.status ≡ status }
        ensures value { result.value.items ≡ self.old.value.items }
        ensures keeps { IsTrue result.keeps ↔ (IsIdle self.old.client × (self.old.intake ≡ [])) }
    {
        let value = mem::replace(&mut self.value, Vec::new(self.alloc));
        Reply {
            status,
            value,
            keeps: self.client.is_idle() && self.intake.unread().is_empty(),
        }
    }

    // Takes what came of the body of the reply of this status, and says whether that was the whole of it. Nothing more is
    // taken unless more has to come.
    fn read_body(&mut self, status: u16) -> Result<bool, ReplyFault>
        requires { self.old.stage ≡ at.Content status }
        ensures came { self.new.came.bytes ≡ self.old.came.bytes }
        ensures most { self.new.most ≡ self.old.most }
        ensures silent { result ≢ Err told.Silent }
        ensures over { result ≡ Ok true → self.new.stage ≡ at.Over }
        ensures reads { ReadsBody self.new.came.bytes status self.new.client self.new.intake self.new.value.items result }
        ensures told { IfErr result (IsToldOf self.new.came.bytes) }
    {
        let mut spans = [EMPTY_HEADER_SPAN; FIELDS];
        let taken = take_content(
            &mut self.client,
            &mut self.intake,
            &mut spans,
            &mut self.value,
            self.most,
        );
        match taken {
            Ok(false) => Ok(false),
            Ok(true) => {
                self.stage = Stage::Over;
                Ok(true)
            }
            Err(fault) => {
                self.stage = Stage::Over;
                Err(content_fault(fault, status))
            }
        }
    }

    // Takes what came of the body, and gives the reply, once that is the whole of it.
    fn read_content(&mut self) -> Result<Option<Reply>, ReplyFault>
        ensures came { self.new.came.bytes ≡ self.old.came.bytes }
        ensures most { self.new.most ≡ self.old.most }
        ensures silent { result ≢ Err told.Silent }
        ensures told { IfErr result (IsToldOf self.new.came.bytes) }
        ensures reply { IfOk result (λ given. IfSome given (λ r. ∥ IsStanding self.new.came.bytes r.status r.value.items ∥₁)) }
        ensures keeps { IfOk result (λ given. IfSome given (λ r. IsTrue r.keeps → MayAskAgain self.new.came.bytes self.new.client r)) }
        ensures within { IfOk result (λ given. IfSome given (λ r. length r.value.items ≤ self.new.most)) }
    {
        let Stage::Content(status) = self.stage else {
            return Ok(None);
        };
        match self.read_body(status) {
            Ok(true) => Ok(Some(self.give(status))),
            Ok(false) => Ok(None),
            Err(fault) => Err(fault),
        }
    }

    /// Bytes come. Gives the reply, once it is whole.
    pub fn receive(&mut self, bytes: &[u8]) -> Result<Option<Reply>, ReplyFault>
        ensures came { self.new.came.bytes ≡ self.old.came.bytes ++ bytes.now }
        ensures most { self.new.most ≡ self.old.most }
        ensures silent { result ≢ Err told.Silent }
        ensures told { IfErr result (IsToldOf self.new.came.bytes) }
        ensures reply { IfOk result (λ given. IfSome given (λ r. ∥ IsStanding self.new.came.bytes r.status r.value.items ∥₁)) }
        ensures keeps { IfOk result (λ given. IfSome given (λ r. IsTrue r.keeps → MayAskAgain self.new.came.bytes self.new.client r)) }
        ensures within { IfOk result (λ given. IfSome given (λ r. length r.value.items ≤ self.new.most)) }
    {
        if let Err(fault) = self.push(bytes) {
            return Err(fault);
        }
        if let Err(fault) = self.read_head() {
            return Err(fault);
        }
        self.read_content()
    }

    /// Whether no byte came.
    pub fn is_silent(&self) -> bool
        ensures { IsTrue result ↔ self.now.came.bytes ≡ [] }
    {
        self.silent
    }

    /// Why there is no reply, where the connection ended, or failed, within it.
    pub fn cut(&self) -> ReplyFault
        ensures silent { result ≡ told.Silent ↔ self.now.came.bytes ≡ [] }
        ensures told { IsToldOf self.now.came.bytes result }
    {
        match self.stage {
            _ if self.silent => ReplyFault::Silent,
            Stage::Content(status) => content_fault(Fault::Lost, status),
            _ => ReplyFault::Lost,
        }
    }

    /// The connection ended. Gives the reply, where its body runs until then.
    pub fn end(&mut self) -> Result<Reply, ReplyFault>
        ensures came { self.new.came.bytes ≡ self.old.came.bytes }
        ensures most { self.new.most ≡ self.old.most }
        ensures reply { IfOk result (λ r. ∥ IsReply self.old.came.bytes r.status r.value.items ∥₁) }
        ensures keeps { IfOk result (λ r. IsTrue r.keeps → MayAskAgain self.old.came.bytes self.new.client r) }
        ensures within { IfOk result (λ r. length r.value.items ≤ self.old.most) }
        ensures silent { result ≡ Err told.Silent → self.old.came.bytes ≡ [] }
        ensures told { IfErr result (IsToldOf self.new.came.bytes) }
    {
        let Stage::Content(status) = self.stage else {
            return Err(self.cut());
        };
        let body = self.read_body(status);
        self.stage = Stage::Over;
        match body {
            Ok(true) => Ok(self.give(status)),
            Ok(false) if ends_here(&mut self.client) => Ok(self.give(status)),
            Ok(false) => Err(content_fault(Fault::Lost, status)),
            Err(fault) => Err(fault),
        }
    }
}

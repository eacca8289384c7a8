//! The replies of a connection: from fills and faults to a writer.
//!
//! It stands on the replies of `peer_reply` and the bytes buffered for a writer. It promises one reply for each call, in
//! order, and none behind a failed write or refused memory.
ghost use Rattle.std.specs.Prelude.{◌≡◌, ℕ, ◌+◌, ◌-◌, ◌^◌, ◌<◌};
ghost use Rattle.peer_conn.specs.Sending.{sending_of_buffer};
ghost use Rattle.peer_conn.specs.WriterStates.{failures_left, PutsText};

use crate::end::WriterState;
use crate::write_buffer::WriteBuffer;
use peer_reply::{Fault, HeadRoom, Reply, ReplyForm};
use peer_source::{Fill, Source};
use peer_view::PeerWrite;
use std::alloc::Global;

/// A writer, the bytes buffered for it, and whether it is written on.
#[derive(Drop)]
pub(crate) struct Responses<W: PeerWrite> {
    pub(crate) out: WriteBuffer<W>,
    head: HeadRoom,
    pub(crate) state: WriterState,
    ghost failures: { W.failures out.writer + failures_left state < 2 ^ 64 },
}

impl<W: PeerWrite> Responses<W> {
    ghost use Rattle.std.specs.Prelude.{◌≡◌, ◌-◌, ◌^◌, ◌<◌, false, [], Some, None, option_map, IfOk, IfErr};
    ghost use Rattle.peer_reply.specs.Texts.{fault_reply, answer_reply};
    ghost use Rattle.peer_conn.specs.WriterStates.{is_active};
    ghost use Rattle.peer_conn.specs.Responses.{AreNewResponses, PutsReply, IsFlushed};

    /// Takes all the memory that it ever takes.
    pub(crate) fn new(alloc: Global, writer: W) -> Result<Responses<W>, W>
        requires { W.failures writer < 2 ^ 64 - 1 }
        ensures ok { IfOk result (λ p. AreNewResponses writer p) }
        ensures err { IfErr result (λ w. w ≡ writer) }
    {
        let out = WriteBuffer::new(alloc, writer)?;
        Ok(Responses {
            out,
            head: HeadRoom::new(),
            state: WriterState::Active,
        })
    }

    /// Whether replies are still written.
    pub(crate) fn is_active(&self) -> bool
        ensures { result ≡ is_active self.now.state }
    {
        matches!(self.state, WriterState::Active)
    }

    /// Puts the reply to a fault, where all went well so far.
    pub(crate) fn put_fault(&mut self, fault: &Fault, form: ReplyForm)
        ensures { PutsReply self.old self.new (Some (fault_reply form.closing form.bare fault.now)) }
    {
        if let WriterState::Active = self.state {
            let reply = Reply::of_fault(&mut self.head, fault, form.closing, form.bare);
            self.state = put_reply(&reply, &mut self.out);
        }
    }

    /// Puts the reply of a fill, where all went well so far.
    pub(crate) fn put_fill<S: Source>(&mut self, fill: &Fill<S>, form: ReplyForm)
        ensures { PutsReply self.old self.new (option_map (answer_reply form.closing form.bare) fill.now.answer) }
    {
        if let WriterState::Active = self.state {
            self.state = match Reply::of_fill(&mut self.head, fill, form.closing, form.bare) {
                Some(reply) => put_reply(&reply, &mut self.out),
                None => WriterState::Memory,
            };
        }
    }

    /// Puts no more replies, since memory was refused for one.
    pub(crate) fn refuse(&mut self)
        ensures puts { PutsReply self.old self.new None }
        ensures stopped { is_active self.new.state ≡ false }
    {
        if let WriterState::Active = self.state {
            self.state = WriterState::Memory;
        }
    }

    /// Writes what is buffered, unless a write failed.
    pub(crate) fn flush(&mut self)
        ensures flushes { IsFlushed self.old self.new }
        ensures empty { self.new.out.buffered.items ≡ [] }
    {
        if let WriterState::WriteFault = self.state {
            return self.out.clear();
        }
        if self.out.flush().is_err() {
            self.state = WriterState::WriteFault;
        }
    }
}

// Puts a reply behind what is buffered.
fn put_reply<W: PeerWrite>(reply: &Reply<'_>, out: &mut WriteBuffer<W>) -> WriterState
    requires { W.failures out.old.writer < 2 ^ 64 - 1 }
    ensures { PutsText reply.now (sending_of_buffer W.failures W.taken out.old out.new) result }
{
    match out.put_parts(&reply.parts()) {
        Ok(()) => WriterState::Active,
        Err(_) => WriterState::WriteFault,
    }
}

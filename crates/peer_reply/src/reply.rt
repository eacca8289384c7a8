//! Replies as four slices.
ghost use Rattle.std.specs.Prelude.{◌≡◌, ◌+◌, ◌≤◌, ◌<◌, ◌^◌, ℕ, [], ◌++◌, length, cond, decimal, Some, None, option_map};
ghost use Rattle.peer_reply.specs.Openings.{opening_bytes};
ghost use Rattle.peer_reply.specs.Texts.{crlf, connection_field, fault_reply, answer_reply, joined};

use crate::fault::Fault;
use crate::head::{HeadRoom, INTERNAL_ERROR, VALUE, write_head};
use crate::opening::Opening;
use crate::wish::ReplyForm;
use peer_source::{Fill, Outcome, Source};
use std::marker::Model;

/// A reply. It lends its head from the room where that was written, and its value or text from the fill or the fault
/// that it answers. Contracts see its text.
#[derive(Drop)]
pub struct Reply<'a> {
    head: &'a [u8],
    opening: Opening,
    value: &'a [u8],
    ending: &'static [u8],
}

impl<'a> Model for Reply<'a> {
    ghost use Rattle.std.specs.Prelude.{List, ℕ, ◌++◌};
    ghost use Rattle.peer_reply.specs.Openings.{opening_bytes};

    ghost Value = { List ℕ };

    ghost view = { λ r. r.head.now ++ (opening_bytes r.opening ++ r.value.now ++ r.ending.now) };
}

// The reply with the content of these three parts, which a bare reply leaves out.
fn reply_of<'a>(
    room: &'a mut HeadRoom,
    start: &[u8],
    opening: Opening,
    value: &'a [u8],
    ending: &'static [u8],
    form: ReplyForm,
) -> Reply<'a>
    requires start { length start.now ≤ 160 }
    requires content { length (opening_bytes opening) + length value.now + length ending.now < 2 ^ 64 }
    ensures { let content = opening_bytes opening ++ value.now ++ ending.now in
        result ≡ start.now ++ decimal (length content) ++ crlf ++ connection_field form.closing ++ crlf ++ cond form.bare [] content }
{
    let length = opening.as_slice().len() + value.len() + ending.len();
    write_head(room, start, length as u64, form.closing);
    let mut reply = Reply {
        head: room.as_slice(),
        opening,
        value,
        ending,
    };
    if form.bare {
        reply.opening = Opening::Text(b"");
        reply.value = b"";
        reply.ending = b"";
    }
    reply
}

// Four slices, lent for no longer than the first.
fn array_of_parts<'s>(
    head: &'s [u8],
    opening: &'s [u8],
    value: &'s [u8],
    ending: &'s [u8],
) -> [&'s [u8]; 4]
    ensures { joined result ≡ head.now ++ (opening.now ++ value.now ++ ending.now) }
{
    [head, opening, value, ending]
}

impl<'a> Reply<'a> {
    /// The reply to a fault. Its head is written into the room.
    pub fn of_fault(
        room: &'a mut HeadRoom,
        fault: &'a Fault,
        closing: bool,
        bare: bool,
    ) -> Reply<'a>
        ensures { result ≡ fault_reply closing bare fault.now }
    {
        let form = ReplyForm { closing, bare };
        let line = fault.line();
        let opening = Opening::Text(line.text);
        reply_of(room, line.start, opening, fault.name(), line.ending, form)
    }

    /// The reply to what the source answered, none where memory was refused. Its head is written into the room.
    pub fn of_fill<S: Source>(
        room: &'a mut HeadRoom,
        fill: &'a Fill<S>,
        closing: bool,
        bare: bool,
    ) -> Option<Reply<'a>>
        ensures { result ≡ option_map (answer_reply closing bare) fill.now.answer }
    {
        let form = ReplyForm { closing, bare };
        let reply = match fill.outcome() {
            Outcome::Found(value) => reply_of(
                room,
                VALUE,
                Opening::of_value(value.len()),
                value.as_slice(),
                b"",
                form,
            ),
            Outcome::Failed(text) => reply_of(
                room,
                INTERNAL_ERROR,
                Opening::Text(b""),
                text.as_slice(),
                b"\n",
                form,
            ),
            Outcome::NoMemory => return None,
        };
        Some(reply)
    }

    /// The parts of the reply: the head, what opens the content, the value or text lent from the fill or the fault,
    /// and what ends the content.
    pub fn parts(&self) -> [&[u8]; 4]
        ensures { joined result ≡ self.now }
    {
        array_of_parts(self.head, self.opening.as_slice(), self.value, self.ending)
    }
}

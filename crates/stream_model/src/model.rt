//! A plain, slow model of a connection: the replies to a whole text, cut by position. It shares no code with what it
//! is compared with.

mod demo;
mod head;
mod place;

use crate::model::demo::{Answer, answer_of};
use crate::model::head::{Head, fault_of, head_of, is_closing};
use crate::model::place::{Place, place_of};
use crate::texts::{TOO_LONG, Then, Told, add_reply, joined};
use std::alloc::{AllocError, Global};

// The bytes of a head, skipped pairs included.
const HEAD_LIMIT: usize = 16_384;

/// What a connection writes for a text, and whether it ends inside a head.
#[derive(Drop)]
pub struct Outcome {
    pub replies: Vec<u8>,
    pub is_cut: bool,
}

/// What a text begins with.
enum Front<'a> {
    TooLong,
    Unfinished { is_inside: bool },
    Block { block: &'a [u8], behind: &'a [u8] },
}

/// The replies to the requests of a text, one after the other.
pub fn outcome_of(alloc: Global, text: &[u8]) -> Result<Outcome, AllocError> {
    let mut replies = Vec::new(alloc);
    let is_cut = add_replies(alloc, &mut replies, text)?;
    Ok(Outcome { replies, is_cut })
}

// Adds the replies to the requests of a text, and says whether it ends inside a head.
fn add_replies(alloc: Global, replies: &mut Vec<u8>, text: &[u8]) -> Result<bool, AllocError> {
    let mut rest = text;
    for number in 1..=10_000 {
        match front_of(rest) {
            Front::TooLong => {
                replies.extend_from_slice(TOO_LONG)?;
                break;
            }
            Front::Unfinished { is_inside } => return Ok(is_inside),
            Front::Block { block, behind } => {
                let then = add_reply_to(alloc, replies, block, number == 10_000)?;
                if matches!(then, Then::Closes) {
                    break;
                }
                rest = behind;
            }
        }
    }
    Ok(false)
}

// What a text begins with: its leading pairs are dropped, and the block goes up to the first blank line.
fn front_of(text: &[u8]) -> Front<'_> {
    let rest = without_pairs(text);
    let skipped = text.len().saturating_sub(rest.len());
    match past_blank_line(rest) {
        Some((block, behind)) if skipped.saturating_add(block.len()) <= HEAD_LIMIT => {
            Front::Block { block, behind }
        }
        _ if text.len() >= HEAD_LIMIT => Front::TooLong,
        _ => Front::Unfinished {
            is_inside: !rest.is_empty(),
        },
    }
}

// A text behind its leading pairs.
fn without_pairs(text: &[u8]) -> &[u8] {
    let mut rest = text;
    for _ in 0..text.len() {
        match rest {
            [b'\r', b'\n', behind @ ..] => rest = behind,
            _ => break,
        }
    }
    rest
}

// A text up to and with its first blank line, and what follows.
fn past_blank_line(text: &[u8]) -> Option<(&[u8], &[u8])> {
    let at = text
        .windows(4)
        .position(|part| part == b"\r\n\r\n".as_slice())?;
    Some(text.split_at(at.saturating_add(4).min(text.len())))
}

// Adds the reply to a block, and says whether it closes.
fn add_reply_to(
    alloc: Global,
    replies: &mut Vec<u8>,
    block: &[u8],
    is_last: bool,
) -> Result<Then, AllocError> {
    match head_of(alloc, block)? {
        Some(head) => add_reply_to_head(alloc, replies, &head, is_last),
        None => {
            let told = Told::Text("400 Bad Request", b"bad head");
            add_reply(alloc, replies, Then::Closes, told)?;
            Ok(Then::Closes)
        }
    }
}

// The same for a head.
fn add_reply_to_head(
    alloc: Global,
    replies: &mut Vec<u8>,
    head: &Head<'_>,
    is_last: bool,
) -> Result<Then, AllocError> {
    let fault = fault_of(head);
    let then = if is_last || fault.is_some() || is_closing(head) {
        Then::Closes
    } else {
        Then::Stays
    };
    if head.method == b"HEAD".as_slice() {
        let mut full = Vec::new(alloc);
        add_full_reply(alloc, &mut full, head, then)?;
        replies.extend_from_slice(without_content(&full))?;
    } else {
        add_full_reply(alloc, replies, head, then)?;
    }
    Ok(then)
}

// Adds the reply to a head, with its content.
fn add_full_reply(
    alloc: Global,
    replies: &mut Vec<u8>,
    head: &Head<'_>,
    then: Then,
) -> Result<(), AllocError> {
    if let Some((status, text)) = fault_of(head) {
        return add_reply(alloc, replies, then, Told::Text(status, text.as_bytes()));
    }
    if head.method != b"GET".as_slice() && head.method != b"HEAD".as_slice() {
        return add_reply(alloc, replies, then, Told::Methods);
    }
    match place_of(alloc, head.target)? {
        Ok(place) => add_answer(alloc, replies, &place, then),
        Err((status, text)) => {
            add_reply(alloc, replies, then, Told::Text(status, text.as_bytes()))
        }
    }
}

// Adds the reply with what the source says of a place.
fn add_answer(
    alloc: Global,
    replies: &mut Vec<u8>,
    place: &Place,
    then: Then,
) -> Result<(), AllocError> {
    match answer_of(alloc, &place.group, &place.key)? {
        Answer::Found(value) => add_found(alloc, replies, &value, then),
        Answer::Failed(text) => {
            let told = Told::Text("500 Internal Server Error", text.as_bytes());
            add_reply(alloc, replies, then, told)
        }
        Answer::NoGroup => {
            let name = place.group.as_slice();
            let text = joined(alloc, &[b"no such group: ".as_slice(), name])?;
            add_reply(alloc, replies, then, Told::Text("404 Not Found", &text))
        }
    }
}

// Adds the reply with a value.
fn add_found(
    alloc: Global,
    replies: &mut Vec<u8>,
    value: &[u8],
    then: Then,
) -> Result<(), AllocError> {
    let body = body_of(alloc, value)?;
    add_reply(alloc, replies, then, Told::Value(&body))
}

// The tag, the length in groups of seven bits, the lowest first, and the value.
fn body_of(alloc: Global, value: &[u8]) -> Result<Vec<u8>, AllocError> {
    let mut body = vec![in alloc; b'\x0A']?;
    let mut left = value.len();
    for _ in 0..3 {
        let low = u8::try_from(left % 128).unwrap_or(0);
        left /= 128;
        if left == 0 {
            body.push(low)?;
            break;
        }
        body.push(low | 128)?;
    }
    body.extend_from_slice(value)?;
    Ok(body)
}

// A reply up to and with its blank line.
fn without_content(reply: &[u8]) -> &[u8] {
    match past_blank_line(reply) {
        Some((fields, _)) => fields,
        None => reply,
    }
}

//! What the bytes at the front of a stream are: the cut, the parser and the rules on heads in turn.
ghost use Rattle.std.specs.Prelude.{◌≡◌, List, ℕ, length};
ghost use Rattle.peer_head.specs.Blocks.{Begins, IsFrontLength};
ghost use Rattle.peer_head.specs.Heads.{MAX_FIELDS};
ghost use Rattle.peer_head.specs.Looks.{LooksAs};
ghost use Rattle.peer_head.specs.Views.{IsHeadAt};

use crate::block::{Cut, find_block};
use crate::fault::HeadFault;
use crate::head::{HeadView, is_bare};
use crate::parse::parse_head;
use crate::places::FieldPlaces;
use crate::summary::summary_of;
use httparse::spans::{HeaderSpan, RequestSpans};

/// What the bytes at the front of a stream are.
#[derive(Drop)]
pub enum Look<'b> {
    /// More bytes are needed.
    Need,
    Head(HeadView<'b>),
    /// The flag tells whether the head's method is `HEAD`, so that the reply goes without content.
    Fault(HeadFault, bool),
}

/// What the bytes held are, and how many of them the first block takes with the pairs before it, 0 where there is no block:
/// `HeadBuf::look` of bytes that lie anywhere.
pub fn look_held<'b>(held: &'b [u8], places: &'b mut FieldPlaces) -> (Look<'b>, usize)
    ensures look { LooksAs held.now result.0 }
    ensures front { IsFrontLength held.now result.1 }
{
    look_at(held, &mut places.places)
}

/// Looks at the first block of the text, and tells how many bytes it takes with the pairs before it.
pub fn look_at<'b>(text: &'b [u8], places: &'b mut [HeaderSpan]) -> (Look<'b>, usize)
    requires { length places.old ≡ MAX_FIELDS }
    ensures look { LooksAs text.now result.0 }
    ensures front { IsFrontLength text.now result.1 }
{
    match find_block(text) {
        Cut::Unfinished => (Look::Need, 0),
        Cut::TooLong => (Look::Fault(HeadFault::TooLong, false), 0),
        Cut::Block { start, end } => (look_at_block(&text[start..end], places), end),
    }
}

// Reads a block, and asks the rules on heads.
fn look_at_block<'b>(block: &'b [u8], places: &'b mut [HeaderSpan]) -> Look<'b>
    requires { length places.old ≡ MAX_FIELDS }
    ensures { (text rest : List ℕ) → Begins text block.now rest → LooksAs text result }
{
    match parse_head(block, places) {
        Some(spans) => judge(block, spans, places),
        None => Look::Fault(HeadFault::NotAHead, false),
    }
}

// Asks the rules on heads of a block that is one.
fn judge<'b>(block: &'b [u8], spans: RequestSpans, fields: &'b [HeaderSpan]) -> Look<'b>
    requires head { IsHeadAt block.now fields.now spans }
    requires few { length fields.now ≡ MAX_FIELDS }
    ensures { (text rest : List ℕ) → Begins text block.now rest → LooksAs text result }
{
    let summary = summary_of(block, &fields[..spans.headers]);
    match summary.fault(spans.version) {
        Some(fault) => Look::Fault(fault, is_bare(spans.method.of(block))),
        None => Look::Head(HeadView::new(block, spans, fields, summary.is_closing(spans.version))),
    }
}

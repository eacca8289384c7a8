//! Views, and the sinks that hold them.

use crate::seen::Seen;
use crate::window;
use peer_view::{AllocSink, ByteView, Sink, SinkFault, TextFault, ViewSink};
use std::alloc::{AllocError, Global};

// Texts of more bytes than a view holds itself.
const OLD: &[u8] = b"what was there, in more letters than a view holds itself, so that it asks";

const NEW: &[u8] = b"what is set, in more letters than a view holds itself, so that it asks";

const NEW_TEXT: &str = "what is set, in more letters than a view holds itself, so that it asks";

// Whether a view was given that has these bytes.
fn given(view: &Result<ByteView, AllocError>, bytes: &[u8]) -> Seen {
    match view {
        Ok(view) => Seen::Answered.only_if(view.eq_bytes(bytes), "other bytes"),
        Err(AllocError) => Seen::Refused,
    }
}

/// `ByteView::copy_of`.
pub fn copy_of(alloc: Global) -> Option<Seen> {
    window::begin(alloc);
    let copy = ByteView::copy_of(alloc, NEW);
    window::end(alloc);
    Some(given(&copy, NEW))
}

/// `ByteView::share`.
pub fn share(alloc: Global) -> Option<Seen> {
    let view = ByteView::copy_of(alloc, OLD).ok()?;
    window::begin(alloc);
    let shared = view.share();
    window::end(alloc);
    Some(given(&shared, OLD).only_if(view.eq_bytes(OLD), "the view changed"))
}

/// `ByteView::slice`.
pub fn slice(alloc: Global) -> Option<Seen> {
    let view = ByteView::copy_of(alloc, OLD).ok()?;
    if view.len() < 60 {
        return None;
    }
    window::begin(alloc);
    let part = view.slice(5, 60);
    window::end(alloc);
    Some(given(&part, &OLD[5..60]).only_if(view.eq_bytes(OLD), "the view changed"))
}

/// `ByteView::slice_from`.
pub fn slice_from(alloc: Global) -> Option<Seen> {
    let view = ByteView::copy_of(alloc, OLD).ok()?;
    if view.len() < 9 {
        return None;
    }
    window::begin(alloc);
    let part = view.slice_from(9);
    window::end(alloc);
    Some(given(&part, &OLD[9..]).only_if(view.eq_bytes(OLD), "the view changed"))
}

// Whether a list was given that has these bytes.
fn bytes_given(list: &Result<Vec<u8>, AllocError>, bytes: &[u8]) -> Seen {
    match list {
        Ok(list) => Seen::Answered.only_if(list.as_slice() == bytes, "other bytes"),
        Err(AllocError) => Seen::Refused,
    }
}

/// `ByteView::to_vec`.
pub fn to_vec(alloc: Global) -> Option<Seen> {
    let view = ByteView::copy_of(alloc, OLD).ok()?;
    window::begin(alloc);
    let bytes = view.to_vec(alloc);
    window::end(alloc);
    Some(bytes_given(&bytes, OLD))
}

// Whether this text was given.
fn text_given(given: &Result<String, TextFault>, text: &str) -> Seen {
    match given {
        Ok(given) => Seen::Answered.only_if(given.as_str() == text, "another text"),
        Err(TextFault::Memory) => Seen::Refused,
        Err(TextFault::NotUtf8) => Seen::Wrong("a text was taken for none"),
    }
}

// Whether it was told that bytes are no text.
fn is_no_text(given: &Result<String, TextFault>) -> bool {
    matches!(given, Err(TextFault::NotUtf8))
}

/// `ByteView::to_text`. What is no text is told, whatever is refused.
pub fn to_text(alloc: Global) -> Option<Seen> {
    let view = ByteView::copy_of(alloc, NEW).ok()?;
    let no_text = ByteView::copy_of(alloc, b"\xFF").ok()?;
    window::begin(alloc);
    let text = view.to_text(alloc);
    let fault = no_text.to_text(alloc);
    window::end(alloc);
    Some(text_given(&text, NEW_TEXT).only_if(is_no_text(&fault), "what is no text was not told"))
}

/// How a sink is set.
#[derive(Clone, Copy)]
pub enum Set {
    Bytes,
    Text,
    View,
}

// Sets what is new, with growths counted.
fn set_new<K: Sink>(
    alloc: Global,
    sink: &mut K,
    set: Set,
    view: &ByteView,
) -> Result<(), SinkFault> {
    window::begin(alloc);
    let set = match set {
        Set::Bytes => sink.set_bytes(alloc, NEW),
        Set::Text => sink.set_str(alloc, NEW_TEXT),
        Set::View => sink.set_view(view),
    };
    window::end(alloc);
    set
}

// Whether what is held fits to what a set answered.
fn held(set: Result<(), SinkFault>, held: &ByteView) -> Seen {
    match set {
        Ok(()) => Seen::Answered.only_if(held.eq_bytes(NEW), "the sink holds other bytes"),
        Err(SinkFault::Memory) => Seen::Refused.only_if(held.eq_bytes(OLD), "the sink changed"),
        Err(SinkFault::TooLong) => Seen::Wrong("the value was taken for too long"),
    }
}

/// A set of `AllocSink`.
pub fn alloc_sink(alloc: Global, set: Set) -> Option<Seen> {
    let view = ByteView::copy_of(alloc, NEW).ok()?;
    let mut sink = AllocSink::new();
    sink.set_bytes(alloc, OLD).ok()?;
    let set = set_new(alloc, &mut sink, set, &view);
    Some(held(set, &sink.into_view()))
}

/// A set of `ViewSink`.
pub fn view_sink(alloc: Global, set: Set) -> Option<Seen> {
    let view = ByteView::copy_of(alloc, NEW).ok()?;
    let mut lent = ByteView::copy_of(alloc, OLD).ok()?;
    let set = set_new(alloc, &mut ViewSink::new(&mut lent), set, &view);
    Some(held(set, &lent))
}

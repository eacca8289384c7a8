//! The last value that each sink was given, by its own calls and through the trait.
ghost use Rattle.std.specs.Prelude.{◌≡◌, Some, length, OnOk, OnErr};
ghost use Rattle.peer_view.specs.Sinks.{placed};

use crate::tests::inputs::view_of;
use bytes::Bytes;
use peer_view::{AllocSink, ByteView, Sink, SinkFault, TruncSink, ViewSink};
use std::alloc::{AllocError, Global};

// Whether the sink takes bytes, and then the text `bc`.
fn takes_copies<S: Sink>(sink: &mut S, alloc: Global) -> bool {
    let takes_bytes = sink.set_bytes(alloc, b"abcd").is_ok();
    let takes_text = sink.set_str(alloc, "bc").is_ok();
    takes_bytes && takes_text
}

// Whether the sink takes the view.
fn takes_view<S: Sink>(sink: &mut S, view: &ByteView) -> bool {
    sink.set_view(view).is_ok()
}

// Whether a sink refused a value as too long.
fn is_too_long(set: Result<(), SinkFault>) -> bool {
    match set {
        Err(SinkFault::TooLong) => true,
        _ => false,
    }
}

// Whether the sink refuses the view, and its bytes, as too long.
fn refuses<S: Sink>(sink: &mut S, alloc: Global, long: &ByteView) -> bool {
    let refuses_bytes = is_too_long(sink.set_bytes(alloc, long.as_slice()));
    let refuses_view = is_too_long(sink.set_view(long));
    refuses_bytes && refuses_view
}

// Whether the sink holds these bytes.
fn holds(sink: AllocSink, bytes: &[u8]) -> bool {
    sink.into_view().eq_bytes(bytes)
}

// So many letters `x`.
fn letters(alloc: Global, count: usize) -> Result<ByteView, AllocError> {
    let mut letters = Vec::new(alloc);
    letters.resize(count, b'x')?;
    Ok(ByteView::from_shared(Bytes::from_vec(letters)?))
}

// Whoever lends a view knows what it ends as.
fn set_lent(view: &mut ByteView, other: &ByteView) -> Result<(), SinkFault>
    ensures ok { OnOk result (view.new ≡ other.now) }
    ensures err { OnErr result (view.new ≡ view.old) }
{
    let mut sink = ViewSink::new(view);
    sink.set_view(other)
}

// Whoever lends a destination knows what it ends as.
fn fill_front(destination: &mut [u8], value: &[u8]) -> usize
    ensures { destination.new ≡ placed (Some (length destination.old)) value.now destination.old }
{
    let mut sink = TruncSink::new(destination);
    sink.set_bytes(value);
    sink.len()
}

#[test]
fn a_lender_gets_back_what_was_set(rt: HostRuntime) {
    let mut view = view_of(b"old");
    assert!(rt; set_lent(&mut view, &view_of(b"new")).is_ok());
    assert!(rt; view.eq_bytes(b"new"));
    let mut destination = *b"...";
    assert_eq!(rt; fill_front(&mut destination, b"no"), 2);
    assert!(rt; destination == *b"no.");
}

// Whether a sink that holds its value holds a text still after it refused this.
fn outlasts(alloc: Global, long: &ByteView) -> bool {
    let mut sink = AllocSink::new();
    takes_copies(&mut sink, alloc) && refuses(&mut sink, alloc, long) && holds(sink, b"bc")
}

#[test]
fn a_sink_holds_the_last_value(rt: HostRuntime) {
    let long = letters(rt.alloc(), 1_048_577).expect(&rt, "memory");
    assert!(rt; outlasts(rt.alloc(), &long));
}

#[test]
fn a_new_sink_holds_nothing(rt: HostRuntime) {
    assert!(rt; holds(AllocSink::new(), b""));
}

// Whether a sink that holds its value holds a copy of this.
fn is_copied(alloc: Global, value: &[u8]) -> bool {
    let mut sink = AllocSink::new();
    sink.set_bytes(alloc, value).is_ok() && holds(sink, value)
}

#[test]
fn a_value_at_the_limit_is_held(rt: HostRuntime) {
    let long = letters(rt.alloc(), 1_048_576).expect(&rt, "memory");
    assert!(rt; is_copied(rt.alloc(), long.as_slice()));
}

#[test]
fn a_lent_view_is_set(rt: HostRuntime) {
    let long = letters(rt.alloc(), 1_048_577).expect(&rt, "memory");
    let mut view = view_of(b"old");
    let _ = ViewSink::new(&mut view);
    assert!(rt; view.eq_bytes(b"old"));
    assert!(rt; takes_copies(&mut ViewSink::new(&mut view), rt.alloc()));
    assert!(rt; refuses(&mut ViewSink::new(&mut view), rt.alloc(), &long));
    assert!(rt; view.eq_bytes(b"bc"));
}

// Whether a sink that holds its value shares the view.
fn is_shared(view: &ByteView) -> bool {
    let mut sink = AllocSink::new();
    takes_view(&mut sink, view) && holds(sink, view.as_slice())
}

#[test]
fn a_sink_shares_a_view(rt: HostRuntime) {
    let hello = view_of(b"hello");
    assert!(rt; is_shared(&hello));
    let mut view = view_of(b"old");
    assert!(rt; takes_view(&mut ViewSink::new(&mut view), &hello));
    assert!(rt; view == hello);
}

// How many bytes of no value, of a text and of other bytes fit into the destination.
fn fit(destination: &mut [u8]) -> [usize; 3] {
    let mut sink = TruncSink::new(destination);
    let of_none = sink.len();
    sink.set_str("hello");
    let of_text = sink.len();
    sink.set_bytes(b"z");
    [of_none, of_text, sink.len()]
}

// Whether a sink over the destination lends these bytes of the view.
fn lends(destination: &mut [u8], view: &ByteView, bytes: &[u8]) -> bool {
    let mut sink = TruncSink::new(destination);
    sink.set_view(view);
    *sink.filled() == *bytes
}

#[test]
fn a_destination_keeps_what_fits(rt: HostRuntime) {
    let mut destination = *b"...";
    assert!(rt; fit(&mut destination) == [0, 3, 1]);
    assert!(rt; destination == *b"zel");
    assert!(rt; lends(&mut destination, &view_of(b"no"), b"no"));
    assert!(rt; destination == *b"nol");
}

#[test]
fn a_destination_refuses_nothing(rt: HostRuntime) {
    let long = letters(rt.alloc(), 1_048_577).expect(&rt, "memory");
    let mut destination = *b"...";
    let mut sink = TruncSink::new(&mut destination);
    assert!(rt; takes_copies(&mut sink, rt.alloc()));
    assert!(rt; takes_view(&mut sink, &long));
    assert!(rt; *sink.filled() == *b"xxx".as_slice());
}

//! A view of `hello`, and each answer of its calls.
ghost use Rattle.std.specs.Prelude.{◌≡◌, ◌-◌, ◌^◌, ◌<◌, length};

use crate::tests::inputs::view_of;
use peer_view::{ByteView, MemWriter, TextFault, WriteFault, cut_front};
use std::alloc::{AllocError, Global};

fn hello() -> ByteView
    ensures { length result ≡ 5 }
{
    view_of(b"hello")
}

#[test]
fn lends_all_its_bytes(rt: HostRuntime) {
    let view = hello();
    assert!(rt; view.len() == 5);
    assert!(rt; !view.is_empty());
    assert!(rt; view.as_slice() == b"hello".as_slice());
}

#[test]
fn lends_its_parts(rt: HostRuntime) {
    let view = hello();
    assert!(rt; view.at(1) == b'e');
    assert!(rt; view.range(1, 3) == b"el".as_slice());
    let (front, back) = view.parts_at(2);
    assert!(rt; front == b"he".as_slice());
    assert!(rt; back == b"llo".as_slice());
}

// What is left of `hello` without its first two bytes.
fn hello_cut(alloc: Global) -> Result<Vec<u8>, AllocError> {
    let mut bytes = Vec::new(alloc);
    bytes.extend_from_slice(b"hello")?;
    cut_front(&mut bytes, 2);
    Ok(bytes)
}

#[test]
fn a_front_is_forgotten(rt: HostRuntime) {
    match hello_cut(rt.alloc()) {
        Ok(bytes) => assert!(rt; bytes.as_slice() == b"llo".as_slice()),
        Err(_) => assert!(rt; false),
    }
}

// Whether memory was had for a view of these bytes.
fn is_view(made: Result<ByteView, AllocError>, bytes: &[u8]) -> bool {
    match made {
        Ok(view) => view.eq_bytes(bytes),
        Err(_) => false,
    }
}

#[test]
fn shares_its_buffer(rt: HostRuntime) {
    let view = hello();
    assert!(rt; is_view(view.slice(1, 4), b"ell"));
    assert!(rt; is_view(view.slice_from(5), b""));
    assert!(rt; is_view(view.share(), b"hello"));
}

#[test]
fn has_a_buffer_of_its_own(rt: HostRuntime) {
    assert!(rt; is_view(ByteView::copy_of(rt.alloc(), b"hello"), b"hello"));
}

// Whether the view equals these bytes, and a view of them.
fn equals(view: &ByteView, bytes: &'static [u8]) -> (bool, bool) {
    (view.eq_bytes(bytes), *view == view_of(bytes))
}

#[test]
fn compares_with_bytes_and_views(rt: HostRuntime) {
    let view = hello();
    assert_eq!(rt; equals(&view, b"hello"), (true, true));
    assert_eq!(rt; equals(&view, b"hell"), (false, false));
    assert_eq!(rt; equals(&view, b"hellO"), (false, false));
}

// Whether memory was had for a vector of these bytes.
fn copies_as_vector(view: &ByteView, alloc: Global, bytes: &[u8]) -> bool {
    match view.to_vec(alloc) {
        Ok(copy) => *copy == *bytes,
        Err(_) => false,
    }
}

// Whether memory was had for this text.
fn copies_as_text(view: &ByteView, alloc: Global, text: &str) -> bool {
    match view.to_text(alloc) {
        Ok(copy) => copy.as_str() == text,
        Err(_) => false,
    }
}

// Whether the view is refused as a text for its bytes.
fn is_no_text(view: &ByteView, alloc: Global) -> bool {
    match view.to_text(alloc) {
        Err(TextFault::NotUtf8) => true,
        _ => false,
    }
}

#[test]
fn copies_into_a_vector_and_a_text(rt: HostRuntime) {
    assert!(rt; copies_as_vector(&hello(), rt.alloc(), b"hello"));
    assert!(rt; copies_as_text(&hello(), rt.alloc(), "hello"));
    assert!(rt; is_no_text(&view_of(b"\xFF"), rt.alloc()));
}

// Whether a read at an offset says this, and leaves this in the room.
fn reads(offset: usize, room: &mut [u8], said: (usize, bool), held: &[u8]) -> bool {
    let (count, is_end) = hello().read_at(offset, room);
    count == said.0 && is_end == said.1 && *room == *held
}

#[test]
fn reads_at_an_offset(rt: HostRuntime) {
    assert!(rt; reads(3, &mut [b'.'; 4], (2, true), b"lo.."));
    assert!(rt; reads(3, &mut [b'.'; 2], (2, false), b"lo"));
    assert!(rt; reads(5, &mut [], (0, true), b""));
    assert!(rt; reads(1, &mut [], (0, false), b""));
}

// Whether so many bytes are copied into the room, which then holds these.
fn copies(room: &mut [u8], count: usize, held: &[u8]) -> bool {
    hello().copy_to(room) == count && *room == *held
}

#[test]
fn copies_what_fits(rt: HostRuntime) {
    assert!(rt; copies(&mut [b'.'; 3], 3, b"hel"));
    assert!(rt; copies(&mut [b'.'; 7], 5, b"hello.."));
}

// Whether the view ends so when it is written, and the writer took these bytes.
fn writes(mut writer: MemWriter, end: Result<(), WriteFault>, taken: &[u8]) -> bool
    requires { writer.failures < 2 ^ 64 - 1 }
{
    hello().write_to(&mut writer) == end && *writer.taken() == *taken
}

#[test]
fn writes_until_the_writer_fails(rt: HostRuntime) {
    let alloc = rt.alloc();
    assert!(rt; writes(MemWriter::new(alloc, 3, None), Ok(()), b"hello"));
    let fault = WriteFault { written: 2 };
    assert!(rt; writes(MemWriter::new(alloc, 8, Some(2)), Err(fault), b"he"));
}

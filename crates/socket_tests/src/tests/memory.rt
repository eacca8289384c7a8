//! What a client is asked for while all clients together hold too much.

use super::actions::Actions;
use super::calls::Calls;
use super::clients::{connect, is_answered, send};
use super::plans::{Expect, Kind, attentive, case_of, plan_of};
use super::servers::is_met;
use std::alloc::{AllocError, Global};
use std::io::Read;
use std::net::{Net, SocketAddr, TcpListener, TcpStream};
use std::sync::Wait;
use std::sync::atomic::Ordering::SeqCst;
use std::thread;
use std::time::{Clock, Duration};
use stream_model::add_request;

// Sends requests for these targets in one text.
fn ask_all(alloc: Global, stream: &TcpStream, targets: &[&str]) -> bool {
    let mut text = Vec::new(alloc);
    targets
        .iter()
        .all(|target| add_request(&mut text, target).is_ok())
        && send(stream, text.as_slice())
}

// Adds a request for the key of a try.
fn add_ask(text: &mut Vec<u8>, name: &[u8], attempt: [u8; 2]) -> Result<(), AllocError> {
    text.extend_from_slice(b"GET /_groupcache/echo/")?;
    text.extend_from_slice(name)?;
    text.extend_from_slice(&attempt)?;
    text.extend_from_slice(b" HTTP/1.1\r\nHost: h\r\n\r\n")
}

// Asks for two values in one text. No other try has their keys: whoever asks for a key again right behind its reply may join the
// flight of that reply, for which no source is called once more.
fn ask_for_pair(alloc: Global, stream: &TcpStream, attempt: [u8; 2]) -> bool {
    let mut text = Vec::new(alloc);
    add_ask(&mut text, b"one", attempt).is_ok()
        && add_ask(&mut text, b"two", attempt).is_ok()
        && send(stream, text.as_slice())
}

// Whether a client gets six small replies: behind so many it may ask for 64 values at once.
fn has_small_replies(stream: &TcpStream) -> bool {
    (0..6).all(|_| is_answered(stream))
}

// Whether the source is called for the first of two values alone, until that came. Both come then.
fn is_asked_for_one<H: AllocGlobal + Clock>(
    rt: &H,
    stream: &TcpStream,
    calls: &Calls,
    attempt: [u8; 2],
) -> bool {
    calls.one.close();
    calls.two.close();
    let asked = ask_for_pair(rt.alloc(), stream, attempt) && calls.one.is_called(rt);
    thread::sleep(rt, Duration::from_millis(250));
    let alone = !calls.two.called.load(SeqCst);
    calls.one.open();
    calls.two.open();
    let mut reader = stream;
    let mut replies = [0; 166];
    asked && reader.read_exact(&mut replies).is_ok() && alone
}

// Whether the source is soon called for one of two values alone, four times in a row: once may be due to a slow thread.
fn is_soon_asked_for_one<H: AllocGlobal + Clock>(
    rt: &H,
    stream: &TcpStream,
    calls: &Calls,
) -> bool {
    (b'a'..=b'z').any(|round| {
        (b'0'..=b'3').all(|turn| is_asked_for_one(rt, stream, calls, [round, turn]))
    })
}

/// Whether a client is asked for one value at a time beside one that waits for three, of which two of 1 MiB came. That one has no
/// turn when they come, since it asked for all in one text and waits for the first.
pub fn is_narrowed<H: AllocGlobal + Net<Listener = TcpListener, Stream = TcpStream> + Wait + Clock>(
    rt: &H,
    address: SocketAddr,
    calls: &Calls,
) -> bool {
    let (Some(large), Some(client)) = (connect(rt, address), connect(rt, address)) else {
        return false;
    };
    let targets = [
        "/_groupcache/echo/slow",
        "/_groupcache/fill/1048576",
        "/_groupcache/fill/1048575",
    ];
    let asked = has_small_replies(&large) && ask_all(rt.alloc(), &large, &targets);
    asked && has_small_replies(&client) && is_soon_asked_for_one(rt, &client, calls)
}

#[test]
fn a_client_is_asked_for_one_value_where_others_hold_too_much(rt: HostRuntime) {
    let plan = plan_of(8, 2, 1).within(attentive());
    let case = case_of(Kind::Loops, plan, Actions::Narrowed, Expect::Ends);
    assert!(rt; is_met(&rt, case));
}

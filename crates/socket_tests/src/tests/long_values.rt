//! Values that are lent to the stream with their heads before them: each reply arrives as it is, one behind the other.

use super::actions::Actions;
use super::clients::{connect, is_text, receive, send};
use super::plans::{BOTH, Expect, case_of, plan_of};
use super::servers::is_met;
use std::alloc::{AllocError, Global};
use std::net::{Net, SocketAddr, TcpListener, TcpStream};
use std::sync::Wait;
use std::thread;
use std::time::{Clock, Duration};
use stream_model::{
    ASK_K_LAST, FOUND_K_LAST, Then, Told, add_repeated, add_reply, add_request, joined, repeated,
};

/// A long value: its target, what stands before its bytes in the body of its reply, and how many bytes it has.
#[derive(Clone, Copy)]
struct Long {
    target: &'static str,
    tag: &'static [u8],
    bytes: usize,
}

const LONG: [Long; 4] = [
    Long {
        target: "/_groupcache/fill/8193",
        tag: b"\x0A\x81\x40",
        bytes: 8_193,
    },
    Long {
        target: "/_groupcache/fill/20000",
        tag: b"\x0A\xA0\x9C\x01",
        bytes: 20_000,
    },
    Long {
        target: "/_groupcache/fill/100000",
        tag: b"\x0A\xA0\x8D\x06",
        bytes: 100_000,
    },
    Long {
        target: "/_groupcache/fill/1048576",
        tag: b"\x0A\x80\x80\x40",
        bytes: 1_048_576,
    },
];

// How often a client asks for them: more than the buffers of its connection hold.
const TIMES: usize = 12;

/// What a client sends, and what it is to receive.
#[derive(Drop)]
struct Script {
    requests: Vec<u8>,
    replies: Vec<u8>,
}

impl Script {
    // Adds a value.
    fn add(&mut self, alloc: Global, long: Long) -> Result<(), AllocError> {
        add_request(&mut self.requests, long.target)?;
        let mut body = joined(alloc, &[long.tag])?;
        add_repeated(&mut body, b"x", long.bytes)?;
        add_reply(alloc, &mut self.replies, Then::Stays, Told::Value(&body))
    }

    // All long values, one time after the other, and a short one that closes.
    fn new(alloc: Global) -> Result<Script, AllocError> {
        let mut once = Script {
            requests: Vec::new(alloc),
            replies: Vec::new(alloc),
        };
        for long in LONG {
            once.add(alloc, long)?;
        }
        let mut requests = repeated(alloc, &once.requests, TIMES)?;
        let mut replies = repeated(alloc, &once.replies, TIMES)?;
        requests.extend_from_slice(ASK_K_LAST)?;
        replies.extend_from_slice(FOUND_K_LAST)?;
        Ok(Script { requests, replies })
    }
}

/// Whether a client that takes nothing for a while receives what it is to receive.
pub fn receives_all<
    H: AllocGlobal + Net<Listener = TcpListener, Stream = TcpStream> + Wait + Clock,
>(rt: &H, address: SocketAddr) -> bool {
    let (Ok(script), Some(stream)) = (Script::new(rt.alloc()), connect(rt, address)) else {
        return false;
    };
    let sent = send(&stream, &script.requests);
    thread::sleep(rt, Duration::from_millis(300));
    sent && is_text(&receive(rt.alloc(), &stream), &script.replies)
}

// The values are kept, so that each is made once.
#[test]
fn each_long_value_arrives_behind_its_head(rt: HostRuntime) {
    let plan = plan_of(1, 1, 1).caching(4_194_304);
    for kind in BOTH {
        let case = case_of(kind, plan, Actions::LongValues, Expect::Asked(49));
        assert!(rt; is_met(&rt, case), "at {kind:?}");
    }
}

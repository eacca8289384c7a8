//! Connections as states: what an exchange sends for a text whose bytes come and go in pieces, and how it ends.
ghost use Rattle.std.specs.Prelude.{◌≡◌};

use super::moved::sends_moved;
use exchange_drive::{Driven, Steps};
use peer_exchange::End;
use peer_source::DemoSource;
use std::alloc::{AllocError, Global};
use std::marker::Brand;
use std::sync::Wait;
use std::sync::ledger::{Blank, Ledger};
use std::thread::Threads;
use stream_model::{ASK_K, ASK_K_LAST, FOUND_K, FOUND_K_LAST, joined, repeated};
use test_support::open_pool;

// A request for a value of 500 bytes, one for a value of 1,000,000, and one for a value of 10,000 with what stands before
// that in the reply.
const ASK_500: &[u8] = b"GET /_groupcache/fill/500 HTTP/1.1\r\nHost: h\r\n\r\n";

const ASK_MILLION: &[u8] = b"GET /_groupcache/fill/1000000 HTTP/1.1\r\nHost: h\r\n\r\n";

const ASK_LONG: &[u8] = b"GET /_groupcache/fill/10000 HTTP/1.1\r\nHost: h\r\n\r\n";

const HEAD_LONG: &[u8] =
    b"HTTP/1.1 200 OK\r\nContent-Type: application/x-protobuf\r\nContent-Length: 10003\r\n\r\n\x0A\x90\x4E";

// Requests like `ASK_K`: for another key, for the same key by an escape, and without the content; and the replies to the
// first and the last.
const ASK_KK: &[u8] = b"GET /_groupcache/echo/kk HTTP/1.1\r\nHost: h\r\n\r\n";

const ASK_ESCAPED: &[u8] = b"GET /_groupcache/echo/%6B HTTP/1.1\r\nHost: h\r\n\r\n";

const ASK_BARE: &[u8] = b"HEAD /_groupcache/echo/k HTTP/1.1\r\nHost: h\r\n\r\n";

const FOUND_KK: &[u8] =
    b"HTTP/1.1 200 OK\r\nContent-Type: application/x-protobuf\r\nContent-Length: 4\r\n\r\n\x0A\x02kk";

const FOUND_BARE: &[u8] =
    b"HTTP/1.1 200 OK\r\nContent-Type: application/x-protobuf\r\nContent-Length: 3\r\n\r\n";

/// All bytes come, and all go.
pub const WHOLE: Steps = Steps {
    input: 20_000,
    output: 2_000_000,
};

// The ways in which the bytes of a worked text come and go.
const WAYS: [Steps; 4] = [
    WHOLE,
    Steps { input: 1, ..WHOLE },
    Steps { output: 1, ..WHOLE },
    Steps {
        input: 1,
        output: 1,
    },
];

/// Two requests and a third behind one that closes, and the replies to them.
pub fn worked(alloc: Global) -> Result<(Vec<u8>, Vec<u8>), AllocError> {
    let text = joined(alloc, &[ASK_K, ASK_K_LAST, ASK_K])?;
    Ok((text, joined(alloc, &[FOUND_K, FOUND_K_LAST])?))
}

// Requests whose heads are like the last one but for the key, and others between them, and the replies to them.
fn alike(alloc: Global) -> Result<(Vec<u8>, Vec<u8>), AllocError> {
    let text = joined(
        alloc,
        &[
            ASK_K,
            ASK_KK,
            ASK_ESCAPED,
            ASK_K,
            ASK_BARE,
            ASK_BARE,
            ASK_KK,
            ASK_K_LAST,
            ASK_K,
        ],
    )?;
    let replies = joined(
        alloc,
        &[
            FOUND_K,
            FOUND_KK,
            FOUND_K,
            FOUND_K,
            FOUND_BARE,
            FOUND_BARE,
            FOUND_KK,
            FOUND_K_LAST,
        ],
    )?;
    Ok((text, replies))
}

// Short and long values in turn, and the replies to them.
fn long(alloc: Global) -> Result<(Vec<u8>, Vec<u8>), AllocError> {
    let long = repeated(alloc, b"x", 10_000)?;
    let text = joined(
        alloc,
        &[ASK_LONG, ASK_K, ASK_K, ASK_LONG, ASK_LONG, ASK_K_LAST],
    )?;
    let longs = joined(alloc, &[HEAD_LONG, &long])?;
    let replies = joined(
        alloc,
        &[&longs, FOUND_K, FOUND_K, &longs, &longs, FOUND_K_LAST],
    )?;
    Ok((text, replies))
}

// Whether the replies to a text are sent in each way.
fn sends_each_way<L: Ledger, H: Wait>(
    driven: &mut Driven<'_, L>,
    rt: &H,
    alloc: Global,
    told: Result<(Vec<u8>, Vec<u8>), AllocError>,
) -> Result<bool, AllocError> {
    let (text, replies) = told?;
    let mut right = true;
    for steps in WAYS {
        right &= driven.sends(rt, alloc, &text, steps, &replies, End::Clean)?;
    }
    Ok(right)
}

// The text comes, what can be asked is, and all jobs are filled. How many bytes are held.
fn held_behind<L: Ledger, H: Wait>(
    driven: &mut Driven<'_, L>,
    rt: &H,
    alloc: Global,
    text: &[u8],
) -> usize {
    let _ = driven.feed(text, text.len());
    driven.ask(rt, alloc);
    driven.held()
}

// At first one ticket waits, and behind 63 short replies 64 do.
fn holds_more<L: Ledger, H: Wait>(
    driven: &mut Driven<'_, L>,
    rt: &H,
    alloc: Global,
) -> Result<bool, AllocError> {
    driven.begin(alloc);
    let text = repeated(alloc, ASK_500, 63)?;
    let first = held_behind(driven, rt, alloc, &text);
    for _ in 0..100 {
        driven.serve(rt, alloc);
        driven.take(100_000)?;
    }
    let more = repeated(alloc, ASK_500, 100)?;
    let behind = held_behind(driven, rt, alloc, &more);
    Ok(first == 500 && behind == 32_000)
}

// A client that asks for values of 1,000,000 bytes and reads nothing has one of them held.
fn holds_one<L: Ledger, H: Wait>(
    driven: &mut Driven<'_, L>,
    rt: &H,
    alloc: Global,
) -> Result<bool, AllocError> {
    driven.begin(alloc);
    let text = repeated(alloc, ASK_MILLION, 20)?;
    let first = held_behind(driven, rt, alloc, &text);
    for _ in 0..100 {
        driven.serve(rt, alloc);
    }
    let behind = driven.held();
    Ok(first == 1_000_000 && 1_000_000 < behind && behind < 1_000_200)
}

// The first ticket of a pool, and so its first flight, is waited for from the ask until its job is filled.
fn awaits_its_fill<L: Ledger, H: Wait>(
    driven: &mut Driven<'_, L>,
    rt: &H,
    alloc: Global,
) -> Result<bool, AllocError> {
    let _ = driven.feed(ASK_500, ASK_500.len());
    let before = driven.awaits();
    driven.ask_held(rt);
    let asked = driven.awaits();
    driven.ask(rt, alloc);
    let filled = driven.awaits();
    Ok([before, asked, filled] == [None, Some(0), None])
}

// The client's end at every place of two requests.
fn sends_cut<L: Ledger, H: Wait>(
    driven: &mut Driven<'_, L>,
    rt: &H,
    alloc: Global,
) -> Result<bool, AllocError> {
    let text = joined(alloc, &[ASK_K, ASK_K])?;
    let mut right = true;
    for at in 0..text.len() {
        let replies = if at < ASK_K.len() {
            b"".as_slice()
        } else {
            FOUND_K
        };
        let end = if at == 0 || at == ASK_K.len() {
            End::Clean
        } else {
            End::Cut
        };
        right &= driven.sends(rt, alloc, &text[..at], WHOLE, replies, end)?;
    }
    Ok(right)
}

/// Which texts come.
#[derive(Clone, Copy)]
pub enum Texts {
    Worked,
    Cut,
    Alike,
    Long,
    More,
    One,
    Awaited,
    Moved,
}

// Whether the replies to these texts are sent, in a ledger.
fn are_sent_over<H: Threads + Wait + Sync, L: Ledger + Send + Sync>(
    rt: &H,
    alloc: Global,
    texts: Texts,
    blank: Blank,
) -> Result<bool, AllocError>
    requires name { blank.name ≡ L.name }
    requires parts { (blank.parts ≡ L.parts) × (blank.parts ≡ 16) }
{
    let Some((pool, lists)) = open_pool::<DemoSource, L>(alloc, DemoSource, 65_536, 1, 1, blank)
    else {
        return Ok(false);
    };
    let Some(mut driven) = Driven::new(alloc, &pool, lists) else {
        return Ok(false);
    };
    match texts {
        Texts::Worked => sends_each_way(&mut driven, rt, alloc, worked(alloc)),
        Texts::Cut => sends_cut(&mut driven, rt, alloc),
        Texts::Alike => sends_each_way(&mut driven, rt, alloc, alike(alloc)),
        Texts::Long => sends_each_way(&mut driven, rt, alloc, long(alloc)),
        Texts::More => holds_more(&mut driven, rt, alloc),
        Texts::One => holds_one(&mut driven, rt, alloc),
        Texts::Awaited => awaits_its_fill(&mut driven, rt, alloc),
        Texts::Moved => sends_moved(driven, rt, alloc),
    }
}

/// Whether the replies to these texts are sent.
pub fn are_sent<H: Threads + Wait + Sync>(
    rt: &H,
    alloc: Global,
    texts: Texts,
) -> Result<bool, AllocError> {
    are_sent_over::<H, Brand>(rt, alloc, texts, Blank::new(16))
}

#[test]
fn an_exchange_sends_the_replies_to_each_text(rt: HostRuntime) {
    for (what, texts) in [
        ("each reply once in each way", Texts::Worked),
        ("up to the client's end", Texts::Cut),
        ("heads like the last one", Texts::Alike),
        ("long values", Texts::Long),
        ("more behind short replies", Texts::More),
        ("one value for a client that reads nothing", Texts::One),
        ("a fill that is waited for", Texts::Awaited),
    ] {
        assert!(rt; are_sent(&rt, rt.alloc(), texts) == Ok(true), "{what}");
    }
}

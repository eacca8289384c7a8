//! Records of replies, and the rings by which they come to an access log.

use peer_access::{Asked, Bell, Found, LineNames, RecordRings, ReplyRecord, TextStart, put_record};
use peer_log::LogForm;
use std::alloc::Global;
use std::net::{Ipv4Addr, SocketAddr, SocketAddrV4};
use std::sync::Arc;
use std::test::Fail;
use std::time::Duration;

// The record of a hit with so many bytes.
fn hit(bytes: usize) -> ReplyRecord {
    ReplyRecord {
        time: Duration::ZERO,
        client: Some(SocketAddr::V4(SocketAddrV4::new(Ipv4Addr::LOCALHOST, 40112))),
        asked: Asked::Key(0, TextStart::of(b"red/7")),
        status: 200,
        bytes,
        found: Found::Hit,
        took: Duration::from_micros(1_000_007),
    }
}

// Whether a record has this line, where its group is named so.
fn is_line(alloc: Global, form: LogForm, record: &ReplyRecord, line: &[u8]) -> Result<bool, Fail> {
    let names = LineNames {
        client: b"127.0.0.1:40112",
        group: b"a b",
    };
    let mut made = Vec::new(alloc);
    put_record(&mut made, form, b"TIME", record, names)?;
    Ok(made.as_slice() == line)
}

#[test]
fn a_record_is_a_line_of_text_or_an_object(rt: HostRuntime) -> Result<(), Fail> {
    let text =
        b"TIME info reply: client=127.0.0.1:40112 group=a%20b key=red%2F7 status=200 bytes=9 found=hit micros=1000007\n";
    let json =
        b"{\"time\":\"TIME\",\"level\":\"info\",\"what\":\"reply\",\"client\":\"127.0.0.1:40112\",\"group\":\"a%20b\",\"key\":\"red%2F7\",\"status\":200,\"bytes\":9,\"found\":\"hit\",\"micros\":1000007}\n";
    let is_text = is_line(rt.alloc(), LogForm::Text, &hit(9), text)?;
    let is_json = is_line(rt.alloc(), LogForm::Json, &hit(9), json)?;
    assert!(rt; is_text);
    assert!(rt; is_json);
    Ok(())
}

#[test]
fn what_was_not_asked_for_is_a_dash(rt: HostRuntime) -> Result<(), Fail> {
    let bad = ReplyRecord {
        asked: Asked::Nothing,
        status: 400,
        found: Found::Nothing,
        ..hit(12)
    };
    let unknown = ReplyRecord {
        asked: Asked::NoGroup(TextStart::of(b"no/ne")),
        status: 404,
        ..bad
    };
    let is_bad = is_line(
        rt.alloc(),
        LogForm::Text,
        &bad,
        b"TIME info reply: client=127.0.0.1:40112 group=- key=- status=400 bytes=12 found=- micros=1000007\n",
    )?;
    let is_unknown = is_line(
        rt.alloc(),
        LogForm::Text,
        &unknown,
        b"TIME info reply: client=127.0.0.1:40112 group=no%2Fne key=- status=404 bytes=12 found=- micros=1000007\n",
    )?;
    assert!(rt; is_bad);
    assert!(rt; is_unknown);
    Ok(())
}

#[test]
fn each_loop_has_a_ring_of_its_own(rt: HostRuntime) -> Result<(), Fail> {
    let bell = Arc::new(rt.alloc(), Bell::default())?;
    let (rings, mut outs) = RecordRings::new(rt.alloc(), 2, &bell)?;
    let second = rings.take(&rt, 1);
    let again = rings.take(&rt, 1).is_none();
    let other = rings.take(&rt, 2).is_none();
    let Some(mut ring) = second else {
        return Err(Fail::from("no ring"));
    };
    ring.put(hit(7));
    let none = outs.get_mut(0).and_then(|out| out.take()).is_none();
    let came = outs.get_mut(1).and_then(|out| out.take());
    drop(ring);
    drop(rings);
    assert!(rt; again && other && none);
    assert!(rt; came.is_some_and(|record| record.bytes == 7));
    Ok(())
}

#[test]
fn a_full_ring_drops_and_counts(rt: HostRuntime) -> Result<(), Fail> {
    let bell = Arc::new(rt.alloc(), Bell::default())?;
    let (rings, mut outs) = RecordRings::new(rt.alloc(), 1, &bell)?;
    let Some(mut ring) = rings.take(&rt, 0) else {
        return Err(Fail::from("no ring"));
    };
    for bytes in 0..4098usize {
        ring.put(hit(bytes));
    }
    let dropped = (ring.take_dropped(), ring.take_dropped());
    let first = outs.get_mut(0).and_then(|out| out.take());
    ring.put(hit(5000));
    let room = ring.take_dropped();
    drop(ring);
    drop(rings);
    assert_eq!(rt; dropped, (2, 0));
    assert!(rt; first.is_some_and(|record| record.bytes == 0));
    assert_eq!(rt; room, 0);
    Ok(())
}

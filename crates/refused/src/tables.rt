//! Tables: how one is read, and what it answers.

use crate::heads::reader_of;
use crate::seen::Seen;
use crate::window;
use peer_source::{GetFault, GetResult, GroupId, Source};
use peer_table::{TableFault, TableSource};
use peer_view::{AllocSink, ByteView};
use std::alloc::Global;

// The first group of a table.
const FIRST: GroupId = GroupId { number: 0 };

// What a table answers for a group and a key.
fn answers(alloc: Global, table: &TableSource, group: GroupId, key: &[u8], value: &[u8]) -> bool {
    let mut sink = AllocSink::new();
    match table.get(alloc, group, key, &mut sink) {
        Ok(()) => sink.into_view().eq_bytes(value),
        Err(GetFault::Text(_) | GetFault::TooLong | GetFault::Memory) => false,
    }
}

/// `TableSource::read_from`.
pub fn read_table(alloc: Global) -> Option<Seen> {
    let mut reader = reader_of(alloc, b"g\ta\t1\ng\tb\t2\nh\ta\t3\n")?;
    window::begin(alloc);
    let read = TableSource::read_from(alloc, &mut reader, 10);
    window::end(alloc);
    Some(match read {
        Ok(table) => {
            let same = answers(alloc, &table, FIRST, b"a", b"1")
                && answers(alloc, &table, FIRST, b"b", b"2")
                && answers(alloc, &table, GroupId { number: 1 }, b"a", b"3");
            Seen::Answered.only_if(same, "another table")
        }
        Err(TableFault::Memory) => Seen::Refused,
        Err(_) => Seen::Wrong("a fault that is none"),
    })
}

// A table of one line.
fn table_of_one(alloc: Global) -> Option<TableSource> {
    let mut reader = reader_of(alloc, b"g\ta\t1\n")?;
    TableSource::read_from(alloc, &mut reader, 10).ok()
}

// What a table of one line gives for a key, and what the sink holds then.
fn get(alloc: Global, key: &[u8]) -> Option<(GetResult, ByteView)> {
    let table = table_of_one(alloc)?;
    let mut sink = AllocSink::new();
    window::begin(alloc);
    let got = table.get(alloc, FIRST, key, &mut sink);
    window::end(alloc);
    Some((got, sink.into_view()))
}

/// `TableSource::get` of a key that a line has.
pub fn found(alloc: Global) -> Option<Seen> {
    let (got, held) = get(alloc, b"a")?;
    Some(match got {
        Ok(()) => Seen::Answered.only_if(held.eq_bytes(b"1"), "another value"),
        Err(GetFault::Memory) => Seen::Refused.only_if(held.is_empty(), "the sink was set"),
        Err(GetFault::Text(_) | GetFault::TooLong) => Seen::Wrong("an error that is none"),
    })
}

// Whether a text is that of an error for a key of no line.
fn is_no_key(text: &[u8]) -> bool {
    text == b"no such key".as_slice()
}

/// `TableSource::get` of a key that no line has.
pub fn missing(alloc: Global) -> Option<Seen> {
    let (got, held) = get(alloc, b"b")?;
    let seen = match got {
        Err(GetFault::Text(text)) => {
            Seen::Answered.only_if(is_no_key(text.as_slice()), "another error")
        }
        Err(GetFault::Memory) => Seen::Refused,
        Ok(()) | Err(GetFault::TooLong) => Seen::Wrong("a value of no line"),
    };
    Some(seen.only_if(held.is_empty(), "the sink was set"))
}

//! Tables: read and searched with ample memory, at each limit, however the bytes come.
use peer_source::{Fill, Names, Outcome, Source};
use peer_table::{TableFault, TableSource};
use peer_view::{ByteView, MemReader};
use std::alloc::{AllocError, Global};

// Reads a table from pieces.
fn read(
    alloc: Global,
    pieces: &[&[u8]],
    fails: bool,
    reads: u32,
) -> Result<Result<TableSource, TableFault>, AllocError> {
    let mut owned = Vec::new(alloc);
    for piece in pieces {
        owned.push(piece.to_vec(alloc)?)?;
    }
    let mut reader = MemReader::new(owned, fails);
    Ok(TableSource::read_from(alloc, &mut reader, u64::from(reads)))
}

/// The table of a text in pieces, none where it has a fault or memory was refused.
pub fn table_of(alloc: Global, pieces: &[&[u8]]) -> Option<TableSource> {
    match read(alloc, pieces, false, 1000) {
        Ok(Ok(table)) => Some(table),
        _ => None,
    }
}

// The fault of a text in pieces.
fn fault_in(
    alloc: Global,
    pieces: &[&[u8]],
    fails: bool,
    reads: u32,
) -> Result<Option<TableFault>, AllocError> {
    match read(alloc, pieces, fails, reads)? {
        Ok(_) => Ok(None),
        Err(fault) => Ok(Some(fault)),
    }
}

/// The fault of a text that comes in one piece.
pub fn fault_of(alloc: Global, text: &[u8]) -> Result<Option<TableFault>, AllocError> {
    fault_in(alloc, &[text], false, 1000)
}

// The fault of a text that comes byte by byte.
fn fault_of_bytes(
    alloc: Global,
    text: &[u8],
    fails: bool,
    reads: u32,
) -> Result<Option<TableFault>, AllocError> {
    let mut pieces = Vec::new(alloc);
    for byte in text.chunks(1) {
        pieces.push(byte)?;
    }
    fault_in(alloc, &pieces, fails, reads)
}

// Whether a text has this fault, in one piece and byte by byte.
fn fails(alloc: Global, text: &[u8], fault: TableFault) -> Result<bool, AllocError> {
    let one = fault_of(alloc, text)?;
    let cut = fault_of_bytes(alloc, text, false, 2_000_000)?;
    Ok(one == Some(fault) && cut == Some(fault))
}

// Whether a fill found this, or failed with it.
fn is_answer(fill: &Fill<TableSource>, want: &[u8], found: bool) -> bool {
    match fill.outcome() {
        Outcome::Found(value) => found && value.eq_bytes(want),
        Outcome::Failed(text) => !found && text.eq_bytes(want),
        Outcome::NoMemory => false,
    }
}

/// Whether a name and key have this answer.
pub fn has(
    alloc: Global,
    table: &TableSource,
    name: &[u8],
    key: &[u8],
    want: &[u8],
    found: bool,
) -> bool {
    let Some(group) = Names::of(table).group(name) else {
        return false;
    };
    match ByteView::copy_of(alloc, key) {
        Ok(key) => is_answer(&Fill::run(alloc, table, group, key), want, found),
        Err(_) => false,
    }
}

#[test]
fn answers_by_its_lines(rt: HostRuntime) {
    let alloc = rt.alloc();
    let pieces = [b"a\tk\to".as_slice(), b"ne\na\tj\t\nb", b"\tk\ttwo\n"];
    let table = table_of(alloc, &pieces).expect(&rt, "a table");
    table.law();
    assert_eq!(rt; table.group_count(), 2);
    assert!(rt; has(alloc, &table, b"a", b"k", b"one", true));
    assert!(rt; has(alloc, &table, b"a", b"j", b"", true));
    assert!(rt; has(alloc, &table, b"b", b"k", b"two", true));
    assert!(rt; has(alloc, &table, b"b", b"j", b"no such key", false));
    assert!(rt; Names::of(&table).group(b"c").is_none());
}

#[test]
fn refuses_bad_lines(rt: HostRuntime) {
    let alloc = rt.alloc();
    for text in [b"".as_slice(), b"a\tk\n", b"a\tk\tv", b"a\tk\tv\tw\n"] {
        assert!(rt; fails(alloc, text, TableFault::Line(1)) == Ok(true));
    }
    assert!(rt; fails(alloc, b"a\tk\tv\n\n", TableFault::Line(2)) == Ok(true));
    assert!(rt; fails(alloc, b"a\tk\tv\na\tk\tw\n", TableFault::Repeated(2)) == Ok(true));
}

#[test]
fn takes_fields_that_are_empty_or_any_bytes(rt: HostRuntime) {
    let alloc = rt.alloc();
    let table = table_of(alloc, &[b"\t\t\n\xFF\r\t\x00\xFE\tv\r\n"]).expect(&rt, "a table");
    assert!(rt; has(alloc, &table, b"", b"", b"", true));
    assert!(rt; has(alloc, &table, b"\xFF\r", b"\x00\xFE", b"v\r", true));
}

#[test]
fn tells_how_reading_failed(rt: HostRuntime) {
    let alloc = rt.alloc();
    let text = [b"a\tk\tv\n".as_slice()];
    assert!(rt; fault_in(alloc, &text, false, 0) == Ok(Some(TableFault::Spent)));
    assert!(rt; fault_in(alloc, &text, false, 1) == Ok(Some(TableFault::Spent)));
    assert!(rt; fault_in(alloc, &text, true, 10) == Ok(Some(TableFault::ReadFault)));
}

#[test]
fn tells_how_reading_byte_by_byte_failed(rt: HostRuntime) {
    let alloc = rt.alloc();
    let text = b"a\tk\tv\n";
    assert!(rt; fault_of_bytes(alloc, text, false, 6) == Ok(Some(TableFault::Spent)));
    assert!(rt; fault_of_bytes(alloc, text, false, 7) == Ok(None));
    assert!(rt; fault_of_bytes(alloc, text, true, 7) == Ok(Some(TableFault::ReadFault)));
}

// A text of lines with so many groups of one byte.
fn groups(alloc: Global, count: u8) -> Result<Vec<u8>, AllocError> {
    let mut text = Vec::new(alloc);
    for number in 0..count {
        text.extend_from_slice(&[100u8.wrapping_add(number), b'\t', b'k', b'\t', b'v', b'\n'])?;
    }
    Ok(text)
}

// A text of one line with a value of so many bytes.
fn line_with(alloc: Global, count: usize) -> Result<Vec<u8>, AllocError> {
    let mut line = b"a\tk\t".to_vec(alloc)?;
    line.resize(count.saturating_add(4), b'x')?;
    line.push(b'\n')?;
    Ok(line)
}

// Whether the one text has no fault, and the other has this one.
fn is_limit(
    alloc: Global,
    most: Result<Vec<u8>, AllocError>,
    more: Result<Vec<u8>, AllocError>,
    fault: TableFault,
) -> Result<bool, AllocError> {
    Ok(fault_of(alloc, &most?)?.is_none() && fails(alloc, &more?, fault)?)
}

#[test]
fn takes_what_is_at_a_limit_and_nothing_above(rt: HostRuntime) {
    let alloc = rt.alloc();
    for (most, more, fault) in [
        (groups(alloc, 64), groups(alloc, 65), TableFault::Groups(65)),
        (
            line_with(alloc, 1_048_576),
            line_with(alloc, 1_048_577),
            TableFault::Value(1),
        ),
    ] {
        assert!(rt; is_limit(alloc, most, more, fault) == Ok(true));
    }
}

#[test]
fn refuses_too_many_bytes(rt: HostRuntime) {
    let alloc = rt.alloc();
    let mut text = Vec::new(alloc);
    text.resize(16_777_217, b'x').expect(&rt, "memory");
    let (most, more) = text.split_at(16_777_216);
    assert!(rt; fault_of(alloc, most) == Ok(Some(TableFault::Line(1))));
    // The read behind them would fail.
    assert!(rt; fault_in(alloc, &[most, more], true, 1000) == Ok(Some(TableFault::TooLarge)));
}

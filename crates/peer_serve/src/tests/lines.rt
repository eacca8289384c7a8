//! Lines with numbers.

use crate::table::table_exit;
use crate::totals::write_totals;
use peer_fill::Report;
use peer_table::TableFault;
use peer_view::{MemWriter, WriteFault};
use std::test::Fail;

// What a pool counted.
const REPORT: Report = Report {
    asked: 2,
    hits: 0,
    led: 2,
    joined: 0,
    strangers: 5,
    calls: 2,
    rehits: 0,
    left: 18_446_744_073_709_551_615,
};

#[test]
fn writes_what_was_counted(rt: HostRuntime) {
    let mut writer = MemWriter::new(rt.alloc(), 7, None);
    assert_eq!(rt; write_totals(&REPORT, &mut writer), Ok(()));
    assert_eq!(rt;
        writer.taken(),
        b"asked 2 hits 0 led 2 joined 0 calls 2 rehits 0 left 18446744073709551615\n".as_slice()
    );
    let none_left = Report { left: 0, ..REPORT };
    let mut writer = MemWriter::new(rt.alloc(), 7, None);
    assert_eq!(rt; write_totals(&none_left, &mut writer), Ok(()));
    assert_eq!(rt;
        writer.taken(),
        b"asked 2 hits 0 led 2 joined 0 calls 2 rehits 0 left 0\n".as_slice()
    );
}

#[test]
fn tells_how_much_was_written(rt: HostRuntime) {
    let mut writer = MemWriter::new(rt.alloc(), 7, Some(10));
    assert_eq!(rt;
        write_totals(&REPORT, &mut writer),
        Err(WriteFault { written: 10 })
    );
    assert_eq!(rt; writer.taken(), b"asked 2 hi".as_slice());
}

#[test]
fn says_why_there_is_no_table(rt: HostRuntime) -> Result<(), Fail> {
    let rows: [(TableFault, u8, &[u8]); 8] = [
        (TableFault::ReadFault, 3, b"peer_serve: read failed\n"),
        (TableFault::Spent, 6, b"peer_serve: too many reads\n"),
        (TableFault::TooLarge, 2, b"peer_serve: table too large\n"),
        (TableFault::Line(1), 2, b"peer_serve: bad table at line 1\n"),
        (
            TableFault::Repeated(20),
            2,
            b"peer_serve: bad table at line 20\n",
        ),
        (
            TableFault::Groups(65),
            2,
            b"peer_serve: bad table at line 65\n",
        ),
        (
            TableFault::Value(300),
            2,
            b"peer_serve: bad table at line 300\n",
        ),
        (TableFault::Memory, 5, b"peer_serve: out of memory\n"),
    ];
    for (fault, status, line) in rows {
        let mut writer = MemWriter::new(rt.alloc(), 7, None);
        assert_eq!(rt; table_exit(&fault, &mut writer), status);
        assert_eq!(rt; writer.taken(), line);
        let mut failing = MemWriter::new(rt.alloc(), 7, Some(3));
        assert_eq!(rt; table_exit(&fault, &mut failing), status);
        assert_eq!(rt; failing.taken(), b"pee".as_slice());
    }
    Ok(())
}

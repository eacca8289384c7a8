//! What the program says where no table could be read.
ghost use Rattle.std.specs.Prelude.{◌≡◌, ◌-◌, ◌^◌, ◌<◌};
ghost use Rattle.peer_serve.specs.Lines.{table_line, table_status, TellsLine};

use crate::line::{Line, append, append_count};
use peer_table::TableFault;
use peer_view::{PeerWrite, write_all};

// The line of a fault.
fn line_of(fault: &TableFault) -> Line
    ensures { result.items ≡ table_line fault.now }
{
    let mut line = Line::new();
    match fault {
        TableFault::ReadFault => append(&mut line, b"peer_serve: read failed"),
        TableFault::Spent => append(&mut line, b"peer_serve: too many reads"),
        TableFault::Memory => append(&mut line, b"peer_serve: out of memory"),
        TableFault::TooLarge => append(&mut line, b"peer_serve: table too large"),
        TableFault::Line(n)
        | TableFault::Repeated(n)
        | TableFault::Groups(n)
        | TableFault::Value(n) => {
            append_count(&mut line, b"peer_serve: bad table at line ", *n as u64)
        }
    }
    append(&mut line, b"\n");
    line
}

// The status of a fault.
fn status_of(fault: &TableFault) -> u8
    ensures { result ≡ table_status fault.now }
{
    match fault {
        TableFault::TooLarge
        | TableFault::Line(_)
        | TableFault::Repeated(_)
        | TableFault::Groups(_)
        | TableFault::Value(_) => 2,
        TableFault::ReadFault => 3,
        TableFault::Memory => 5,
        TableFault::Spent => 6,
    }
}

/// Writes why no table could be read, and gives the status of the program, which a failed write does not change.
pub fn table_exit<W: PeerWrite>(fault: &TableFault, writer: &mut W) -> u8
    requires { W.failures writer.old < 2 ^ 64 - 1 }
    ensures status { result ≡ table_status fault.now }
    ensures line { TellsLine (W.failures writer.old) (W.failures writer.new)
        (W.taken writer.old) (W.taken writer.new) (table_line fault.now) }
{
    let _ = write_all(writer, line_of(fault).as_slice());
    status_of(fault)
}

//! What a pool counted, as a line.
ghost use Rattle.std.specs.Prelude.{◌≡◌, ◌-◌, ◌^◌, ◌<◌, ◌≤◌, [], length, take, IfErr};
ghost use Rattle.std.specs.Io.KnownBytes.{Appends};
ghost use Rattle.peer_view.specs.Moves.{Sends};
ghost use Rattle.peer_serve.specs.Lines.{totals_line};

use crate::line::{Line, append, append_count};
use peer_fill::Report;
use peer_view::{PeerWrite, WriteFault, write_all};

// The line of a report.
fn line_of(report: &Report) -> Line
    ensures { result.items ≡ totals_line report.now }
{
    let mut line = Line::new();
    append_count(&mut line, b"asked ", report.asked);
    append_count(&mut line, b" hits ", report.hits);
    append_count(&mut line, b" led ", report.led);
    append_count(&mut line, b" joined ", report.joined);
    append_count(&mut line, b" calls ", report.calls);
    append_count(&mut line, b" rehits ", report.rehits);
    append_count(&mut line, b" left ", report.left);
    append(&mut line, b"\n");
    line
}

/// Writes a line with the numbers of a report.
pub fn write_totals<W: PeerWrite>(report: &Report, writer: &mut W) -> Result<(), WriteFault>
    requires { W.failures writer.old < 2 ^ 64 - 1 }
    ensures sends { Sends result (W.failures writer.old) (W.failures writer.new)
        (W.taken writer.old) (W.taken writer.new) (totals_line report.now) [] }
    ensures written { IfErr result (λ e. (e.written ≤ length (totals_line report.now))
        × Appends (W.taken writer.old) (W.taken writer.new) (take e.written (totals_line report.now))) }
{
    write_all(writer, line_of(report).as_slice())
}

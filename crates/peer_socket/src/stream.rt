//! The serving of one stream.
ghost use Rattle.peer_fill.specs.Claiming.{KeepsSeat};
ghost use Rattle.peer_fill.specs.Pools.{IsConnSeatOf};

use crate::client::Client;
use crate::client_reader::ClientReader;
use crate::client_writer::ClientWriter;
use crate::closing::linger;
use peer_conn::{End, READS, Served, serve_connection};
use peer_fill::{ConnSeat, Pool};
use peer_runtime::Host;
use peer_source::Source;
use std::alloc::Global;
use std::sync::ledger::Ledger;
use std::time::Clock;

// Whether the server closes, and not the client, which may not have read yet what was written. One that was given up for its
// silence had its replies before, but for those that were written since.
fn is_closed_by_server<H: Clock>(
    served: &Served<ClientReader<'_, H>, ClientWriter<'_, H>>,
) -> bool {
    match served.end {
        End::WriteFault => false,
        End::ReadFault => served.reader.was_answered_since(),
        _ => !served.reader.has_ended(),
    }
}

/// Serves a client until its connection ends. The stream can be closed then.
pub fn serve_client<S: Source + Send + Sync, L: Ledger + Send + Sync, H: Host>(
    rt: &H,
    alloc: Global,
    pool: &Pool<S, L>,
    seat: ConnSeat<S, L>,
    client: &Client<'_, H>,
) -> ConnSeat<S, L>
    requires { IsConnSeatOf pool.now seat }
    ensures { KeepsSeat pool.now seat result }
{
    let reader = ClientReader::new(client);
    let writer = ClientWriter::new(client);
    let (served, seat) = serve_connection(rt, alloc, pool, seat, reader, writer, READS);
    if is_closed_by_server(&served) {
        linger(client);
    }
    seat
}

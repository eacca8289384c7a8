//! How the program ends.
ghost use Rattle.peer_serve.specs.Exits.{EndsAs};

use peer_conn::End;

/// How the program ends: its status, and the line on standard error, where there is one that was not said yet.
#[derive(Clone, Copy, Debug, PartialEq, Eq, Drop)]
pub struct Exit {
    pub status: u8,
    pub line: Option<&'static str>,
}

/// Where everything was answered, or a report was printed.
pub const SERVED: Exit = Exit {
    status: 0,
    line: None,
};

/// Where the program was called with words that it does not know.
pub const USAGE: Exit = Exit {
    status: 1,
    line: Some("usage: peer_serve [ADDRESS WORKERS CONNS ROUNDS [-]]"),
};

/// Where the address cannot be bound.
pub const CANNOT_BIND: Exit = Exit {
    status: 2,
    line: Some("peer_serve: cannot bind"),
};

/// Where the bytes on standard input end inside a head.
pub const CUT: Exit = Exit {
    status: 2,
    line: Some("peer_serve: input ended inside a head"),
};

/// Where a read fails, also that of a random seed for the caches, without which clients could choose keys that collide.
pub const READ_FAILED: Exit = Exit {
    status: 3,
    line: Some("peer_serve: read failed"),
};

/// Where standard output fails.
pub const NO_OUTPUT: Exit = Exit {
    status: 4,
    line: Some("peer_serve: write failed"),
};

/// Where memory was refused.
pub const OUT_OF_MEMORY: Exit = Exit {
    status: 5,
    line: Some("peer_serve: out of memory"),
};

/// Where the last read was made that there is.
pub const SPENT: Exit = Exit {
    status: 6,
    line: Some("peer_serve: too many reads"),
};

/// How the program ends where its one connection ended.
pub fn exit_of(end: &End) -> Exit
    ensures { EndsAs end.now result }
{
    match end {
        End::Clean => SERVED,
        End::Cut => CUT,
        End::ReadFault => READ_FAILED,
        End::WriteFault => NO_OUTPUT,
        End::Memory | End::Worn => OUT_OF_MEMORY,
        End::Spent => SPENT,
    }
}

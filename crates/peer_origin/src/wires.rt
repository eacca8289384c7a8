//! What connections carried, which the network says of them.
//!
//! It stands on the streams of `mio`, noted (`Wire`), and on what a whole request and a whole reply are. It promises nothing of the
//! system: of its sockets no clause says what they sent or gave.
ghost use Rattle.std.specs.Prelude.{◌≡◌, ◌<◌, ◌++◌, ◌||◌, ◌==◌, ℕ, List, Bool, length, take, IfOk, OnErr};
ghost use Rattle.std.specs.Io.{ReadsAtMost, WritesAtMost};
ghost use Rattle.peer_runtime.specs.Wires.{Carried, IsBlank, IsSameCame, IsSameSent};
ghost use Rattle.peer_origin.specs.Wires.{IsOver};

use mio::net::TcpStream;
use peer_runtime::Wire;
use std::io;

/// A network, which says of its connections what they carried. Its calls alone say so.
pub trait Wires {
    // On one connection, since it was new or its last use was over, these bytes were sent, those came, and its end was told or not.
    ghost carried: { List ℕ → List ℕ → Bool → Type 0 };

    /// A connection of a stream: nothing was sent on it, and nothing came.
    fn wire(&self, stream: TcpStream) -> Wire
        ensures blank { IsBlank result }
        ensures carried { Carried carried result };

    /// Another use of a connection begins, once the last one is over: nothing was sent in it, and nothing came.
    fn begin(&self, wire: &mut Wire)
        requires over { IsOver wire.old }
        ensures blank { IsBlank wire.new }
        ensures carried { Carried carried wire.new };

    /// Sends bytes off the front, and says how many.
    fn write(&self, wire: &mut Wire, bytes: &[u8]) -> io::Result<usize>
        requires { Carried carried wire.old }
        ensures bound { WritesAtMost result bytes.now }
        ensures sent { IfOk result (λ n. wire.new.sent.bytes ≡ wire.old.sent.bytes ++ take n bytes.now) }
        ensures err { OnErr result (IsSameSent wire.old wire.new) }
        ensures came { IsSameCame wire.old wire.new }
        ensures carried { Carried carried wire.new };

    /// Gives bytes that came into the front of the room, and says how many. None is the end.
    fn read(&self, wire: &mut Wire, room: &mut [u8]) -> io::Result<usize>
        requires room { 0 < length room.old }
        requires carried { Carried carried wire.old }
        ensures bound { ReadsAtMost result room.new }
        ensures came { IfOk result (λ n. wire.new.came.bytes ≡ wire.old.came.bytes ++ take n room.new) }
        ensures ended { IfOk result (λ n. wire.new.ended ≡ (wire.old.ended || n == 0)) }
        ensures err { OnErr result (IsSameCame wire.old wire.new) }
        ensures sent { IsSameSent wire.old wire.new }
        ensures carried { Carried carried wire.new };
}

// What the system's sockets carried no clause tells. Of any other network this says nothing.
impl Wires for HostRuntime {
    ghost carried = { λ sent came ended. Unit {0} };

    fn wire(&self, stream: TcpStream) -> Wire {
        Wire::new(stream)
    }

    fn begin(&self, wire: &mut Wire) {
        wire.begin();
    }

    fn write(&self, wire: &mut Wire, bytes: &[u8]) -> io::Result<usize> {
        wire.write(bytes)
    }

    fn read(&self, wire: &mut Wire, room: &mut [u8]) -> io::Result<usize> {
        wire.read(room)
    }
}

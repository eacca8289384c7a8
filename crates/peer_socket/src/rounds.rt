//! The rounds of one seat: so many times it waits for a client, and no other way uses one up.
ghost use Rattle.std.specs.Prelude.{◌≡◌, ◌+◌, ◌<◌};

use crate::acceptor::Acceptor;
use peer_runtime::Network;
use std::net::TcpStream;
use std::thread;

/// The rounds that are left.
#[derive(Drop)]
pub struct Rounds<'a> {
    acceptor: &'a Acceptor<'a>,
    left: u64,
}

impl<'a> Rounds<'a> {
    /// All rounds are left.
    pub fn new(acceptor: &'a Acceptor<'a>) -> Rounds<'a>
        ensures { result.left ≡ acceptor.now.rounds }
    {
        Rounds {
            acceptor,
            left: acceptor.rounds,
        }
    }

    /// How many are left.
    pub fn left(&self) -> u64
        ensures { result ≡ self.now.left }
    {
        self.left
    }

    /// The next client. None where the accept failed, which uses up a round too, and is over after a pause, in which this seat counts as
    /// taken: silent clients make room where there are no more files.
    pub fn accept<H: Network>(&mut self, rt: &H) -> Option<TcpStream>
        requires { 0 < self.old.left }
        ensures { self.new.left + 1 ≡ self.old.left }
    {
        self.left -= 1;
        match self.acceptor.listener.accept() {
            Ok((stream, _)) => Some(stream),
            Err(_) => {
                self.acceptor.occupancy.enter();
                thread::sleep(rt, self.acceptor.limits.pause);
                self.acceptor.occupancy.leave();
                None
            }
        }
    }
}

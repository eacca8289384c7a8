//! The bytes of a connection that were read and not taken yet.
ghost use Rattle.std.specs.Prelude.{◌≡◌, ◌≤◌, ◌++◌, [], drop, length, OnOk};

use peer_view::cut_front;
use std::alloc::{AllocError, Global};
use std::marker::Model;

/// The bytes that were read. Contracts see those that were not taken yet.
#[derive(Drop)]
pub struct Intake {
    bytes: Vec<u8>,
    from: usize,
}

impl Model for Intake {
    ghost use Rattle.std.specs.Prelude.{List, ℕ, ◌≤◌, drop, length};

    ghost Value = { List ℕ };

    ghost view = { λ i. drop i.from i.bytes.items };

    ghost invariant = { λ i. i.from ≤ length i.bytes.items };
}

// Puts bytes behind those that were read, of which some were taken. These are forgotten, so that a sender of heads without
// end fills no memory: what is left is less than a head.
fn put_behind(bytes: &mut Vec<u8>, from: &mut usize, more: &[u8]) -> Result<(), AllocError>
    requires { from.old ≤ length bytes.old.items }
    ensures within { from.new ≤ length bytes.new.items }
    ensures put { OnOk result (drop from.new bytes.new.items ≡ drop from.old bytes.old.items ++ more.now) }
{
    if *from > 0 {
        cut_front(bytes, *from);
        *from = 0;
    }
    bytes.extend_from_slice(more)
}

impl Intake {
    /// Nothing was read.
    pub fn new(alloc: Global) -> Intake
        ensures { result ≡ [] }
    {
        Intake {
            bytes: Vec::new(alloc),
            from: 0,
        }
    }

    /// What was read and not taken.
    pub fn unread(&self) -> &[u8]
        ensures { result.now ≡ self.now }
    {
        &self.bytes[self.from..]
    }

    /// Takes so many bytes.
    pub fn take(&mut self, n: usize)
        requires { n ≤ length self.old }
        ensures { self.new ≡ drop n self.old }
    {
        self.from += n;
    }

    /// Puts bytes behind those that were read.
    pub fn push(&mut self, bytes: &[u8]) -> Result<(), AllocError>
        ensures { OnOk result (self.new ≡ self.old ++ bytes.now) }
    {
        put_behind(&mut self.bytes, &mut self.from, bytes)
    }
}

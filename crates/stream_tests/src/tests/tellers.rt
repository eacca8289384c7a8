//! Devices in memory that do something before each of their calls.
ghost use Rattle.std.specs.Prelude.{Some};

use peer_view::{MemReader, MemWriter, PeerRead, PeerWrite, ReadFailed, WriteFailed};
use std::sync::atomic::AtomicU64;
use std::sync::atomic::Ordering::SeqCst;
use test_support::Step;

/// What a device does before each of its calls.
pub trait BeforeCall: Send + Drop {
    fn act(&self);
}

/// Tells of each call.
#[derive(Drop)]
pub struct Telling<'a> {
    pub step: &'a Step,
}

impl<'a> BeforeCall for Telling<'a> {
    fn act(&self) {
        self.step.tell();
    }
}

/// Tells of each call but the first.
#[derive(Drop)]
pub struct TellingLater<'a> {
    pub calls: AtomicU64,
    pub step: &'a Step,
}

impl<'a> BeforeCall for TellingLater<'a> {
    fn act(&self) {
        if self.calls.fetch_add(1, SeqCst) > 0 {
            self.step.tell();
        }
    }
}

/// A device in memory, before whose calls something is done.
#[derive(Drop)]
pub struct Acting<D: Drop, B: BeforeCall> {
    pub device: D,
    pub before: B,
}

impl<B: BeforeCall> PeerRead for Acting<MemReader, B> {
    ghost given = { λ r. Some r.device.given };

    ghost calls = { λ r. r.device.calls };

    ghost ends = { λ r. r.device.ends };

    ghost failures = { λ r. r.device.failures };

    fn read(&mut self, room: &mut [u8]) -> Result<usize, ReadFailed> {
        self.before.act();
        self.device.read(room)
    }
}

impl<B: BeforeCall> PeerWrite for Acting<MemWriter, B> {
    ghost taken = { λ w. Some w.device.taken };

    ghost failures = { λ w. w.device.failures };

    fn write(&mut self, bytes: &[u8]) -> Result<usize, WriteFailed> {
        self.before.act();
        self.device.write(bytes)
    }
}

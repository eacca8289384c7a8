//! The last failures of services: what a line tells of them.
ghost use Rattle.std.specs.Prelude.{◌≡◌, ◌≤◌, take};

use crate::failure::OriginFailure;
use std::sync::{Mutex, Wait};

/// How many bytes of a key are told.
const MOST_BYTES: usize = 64;

// How many kinds of failures there are.
const KINDS: usize = 8;

/// The first bytes of a key, 64 at most.
#[derive(Clone, Copy)]
pub struct KeyStart {
    bytes: [u8; MOST_BYTES],
    len: usize,
    ghost fits: { len ≤ 64 },
}

impl KeyStart {
    ghost use Rattle.peer_stats.specs.Starts.{start_of};

    /// Those of this key.
    pub fn of(key: &[u8]) -> KeyStart
        ensures { start_of result ≡ take 64 key.now }
    {
        let len = key.len().min(MOST_BYTES);
        let mut bytes = [0; MOST_BYTES];
        bytes[..len].copy_from_slice(&key[..len]);
        KeyStart { bytes, len }
    }

    /// These bytes.
    pub fn as_slice(&self) -> &[u8]
        ensures { result.now ≡ start_of self.now }
    {
        &self.bytes[..self.len]
    }
}

/// A failure of a service.
#[derive(Clone, Copy)]
pub struct LastFailure {
    /// The status that it answered, if it answered one.
    pub status: Option<u16>,
    /// The key that it was asked for.
    pub key: KeyStart,
}

// Where the last failure of a kind is told, of one group.
#[derive(Drop)]
struct LastSlot {
    last: Mutex<Option<LastFailure>>,
}

impl Default for LastSlot {
    fn default() -> LastSlot {
        LastSlot {
            last: Mutex::new(None),
        }
    }
}

/// Where the last failures of the service of one group are told, by their kinds.
#[derive(Default, Drop)]
pub(crate) struct LastSlots {
    kinds: [LastSlot; KINDS],
}

// The number of a kind.
fn number_of(failure: OriginFailure) -> usize
    ensures { result ≤ 7 }
{
    match failure {
        OriginFailure::NoSuchKey => 0,
        OriginFailure::Status => 1,
        OriginFailure::Unreached => 2,
        OriginFailure::Late => 3,
        OriginFailure::Lost => 4,
        OriginFailure::Malformed => 5,
        OriginFailure::TooLong => 6,
        OriginFailure::Memory => 7,
    }
}

impl LastSlots {
    /// The last failure of this kind is this one.
    pub(crate) fn tell<H: Wait>(&self, rt: &H, failure: OriginFailure, last: LastFailure) {
        *self.kinds[number_of(failure)].last.lock(rt) = Some(last);
    }

    /// The last failure of this kind, if there was one.
    pub(crate) fn read<H: Wait>(&self, rt: &H, failure: OriginFailure) -> Option<LastFailure> {
        *self.kinds[number_of(failure)].last.lock(rt)
    }
}

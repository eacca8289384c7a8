//! Gates: what is called as a job is taken, counted and filled. By it a server tells its loops of room and of fills, and a test
//! holds a worker back.
use peer_source::GroupId;
use std::sync::Wait;

/// What is called as a job is taken, counted and filled.
pub trait Gate {
    /// A job was taken, with the flight's right. The cache is looked into next, and only where that has no value the source is called,
    /// or the job is handed out for that.
    fn after_take<R: Wait>(&self, rt: &R, group: GroupId, key: &[u8]);

    /// The flight with this number has its fill, and has not landed yet.
    fn after_put<R: Wait>(&self, rt: &R, number: u64, group: GroupId, key: &[u8]);

    /// The seat has counted so many calls by now, as `FillCounts` has them, and found the value of so many jobs kept. The last of them is
    /// of this group.
    fn after_count(&self, _group: GroupId, _calls: u64, _rehits: u64) {}
}

/// Holds nobody back.
#[derive(Clone, Copy, Debug)]
pub struct NoGate;

impl Gate for NoGate {
    fn after_take<R: Wait>(&self, _rt: &R, _group: GroupId, _key: &[u8]) {}

    fn after_put<R: Wait>(&self, _rt: &R, _number: u64, _group: GroupId, _key: &[u8]) {}
}

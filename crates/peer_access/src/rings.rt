//! The rings of all loops, from which each loop takes its own.

use crate::bell::Bell;
use crate::ring::{RecordsIn, RecordsOut, ring};
use std::alloc::{AllocError, Global};
use std::sync::{Arc, Mutex, Wait};

/// Where loops find their rings.
#[derive(Drop)]
pub struct RecordRings {
    // By the numbers of the loops. None where a loop took its own.
    each: Vec<Mutex<Option<RecordsIn>>>,
}

impl RecordRings {
    // Adds the ring of the next loop. Gives its other end.
    fn add(&mut self, alloc: Global, bell: &Arc<Bell, Global>) -> Result<RecordsOut, AllocError> {
        let (put, out) = ring(alloc, Arc::try_clone(bell)?)?;
        self.each.push(Mutex::new(Some(put)))?;
        Ok(out)
    }

    /// The rings of so many loops, which wake the log by this bell, and their other ends.
    pub fn new(
        alloc: Global,
        loops: usize,
        bell: &Arc<Bell, Global>,
    ) -> Result<(RecordRings, Vec<RecordsOut>), AllocError> {
        let mut rings = RecordRings {
            each: Vec::new(alloc),
        };
        let mut outs = Vec::new(alloc);
        for _ in 0..loops {
            outs.push(rings.add(alloc, bell)?)?;
        }
        Ok((rings, outs))
    }

    /// The ring of the loop with this number, which nobody else has, or none.
    pub fn take<H: Wait>(&self, rt: &H, number: usize) -> Option<RecordsIn> {
        self.each.get(number)?.lock(rt).take()
    }
}

//! How many values of each group are under way, and whether another one may be, by what is set of the group.
//!
//! It stands on vectors. It promises that another one may be as long as fewer are under way than that says.
ghost use Rattle.std.specs.Prelude.{◌≡◌, ◌≢◌, ◌↔◌, ◌+◌, ◌-◌, ◌^◌, ◌<◌, ℕ};
ghost use Rattle.std.specs.Prelude.{IfOk, IfSome, IsTrue, Some, length, map, replicate, slice_get};
ghost use Rattle.peer_value.specs.GroupShares.{HasOwnRoom, most_for};

use peer_origin::Endpoint;
use std::alloc::{AllocError, Global};

/// How many values of each group are under way, by the number of its endpoint.
#[derive(Drop)]
pub struct GroupShares {
    each: Vec<usize>,
    // How many may be.
    most: Vec<usize>,
}

// How many values of each group may be under way.
fn most_of_each(alloc: Global, endpoints: &[Endpoint]) -> Result<Vec<usize>, AllocError>
    ensures { IfOk result (λ most. most.items ≡ map most_for endpoints.now) }
{
    let mut most = Vec::with_capacity(alloc, endpoints.len())?;
    for endpoint in endpoints {
        most.push(endpoint.own.most())?;
    }
    Ok(most)
}

impl GroupShares {
    /// No value of the groups of these endpoints is under way.
    pub fn new(alloc: Global, endpoints: &[Endpoint]) -> Result<GroupShares, AllocError>
        ensures each { IfOk result (λ shares. shares.each.items ≡ replicate (length endpoints.now) 0) }
        ensures most { IfOk result (λ shares. shares.most.items ≡ map most_for endpoints.now) }
    {
        Ok(GroupShares {
            each: vec![in alloc; 0; endpoints.len()]?,
            most: most_of_each(alloc, endpoints)?,
        })
    }

    /// Whether another value of the group of this endpoint may be under way.
    pub fn has_room(&self, number: usize) -> bool
        ensures { IsTrue result ↔ HasOwnRoom self.now.each.items self.now.most.items number }
    {
        match (self.each.get(number), self.most.get(number)) {
            (Some(own), Some(most)) => *own < *most,
            _ => true,
        }
    }

    /// One more of this endpoint is under way.
    pub fn begin(&mut self, number: usize)
        ensures most { self.new.most ≡ self.old.most }
        ensures own { IfSome (slice_get self.old.each.items number)
            (λ own. own < 2 ^ 64 - 1 → slice_get self.new.each.items number ≡ Some (own + 1)) }
        ensures others { (n : ℕ) → n ≢ number → slice_get self.new.each.items n ≡ slice_get self.old.each.items n }
    {
        if let Some(own) = self.each.get_mut(number) {
            *own = own.saturating_add(1);
        }
    }

    /// One of this endpoint is under way no longer.
    pub fn end(&mut self, number: usize)
        ensures most { self.new.most ≡ self.old.most }
        ensures own { IfSome (slice_get self.old.each.items number) (λ own. slice_get self.new.each.items number ≡ Some (own - 1)) }
        ensures others { (n : ℕ) → n ≢ number → slice_get self.new.each.items n ≡ slice_get self.old.each.items n }
    {
        if let Some(own) = self.each.get_mut(number) {
            *own = own.saturating_sub(1);
        }
    }
}

//! The addresses of one service: whose turn it is, and which of them rest.
//!
//! It stands on its addresses (`Listed`), and on times that whoever calls it tells. It promises that an address which rests is
//! given only if all do, to one value a second; that one is given if one does not rest; that turns go round, since the address
//! given stands behind all others from then on; and that an event changes the address that it befell, and no other.
ghost use Rattle.std.specs.Prelude.{All, ◌≡◌, ◌≢◌, ◌<◌, ◌⊎◌, ℕ, [], IfNone, IfSome, IsFalse, IsTrue, length, slice_index_or};
ghost use Rattle.std.specs.Prelude.{◌-◌, ◌^◌, count_by, is_some, min};
ghost use Rattle.std.specs.List.{AllWithin, HoldsAt};
ghost use Rattle.std.specs.Duration.{as_nanos};
ghost use Rattle.peer_value.specs.AddressBooks.{IsGivenAt, IsInTurn, IsNoted, IsOfSameRests, IsTrial, MayNotTry};
ghost use Rattle.peer_value.specs.Listings.{IsAfter, RestsAt, later_by};
ghost use Rattle.peer_value.specs.declared.listed.Listed.{Listed};

use crate::listed::{Event, Listed};
use std::alloc::{AllocError, Global};
use std::net::SocketAddr;
use std::time::Duration;

// How long no other value tries an address after one did, if all rest.
const TRIAL_SECONDS: u64 = 1;

/// The addresses of a service.
#[derive(Drop)]
pub struct AddressBook {
    // In the order in which they are given.
    each: Vec<Listed>,
    // From when on a value may try one though all rest.
    trial: Duration,
    // How many values in a row are late until their address rests.
    most: u32,
    // How long an address rests.
    rest: Duration,
}

// The first address that does not rest.
fn first_awake(each: &[Listed], now: Duration) -> Option<usize>
    ensures there { IfSome result (λ index. index < length each.now) }
    ensures awake { IfSome result (HoldsAt (λ a. ¬ (RestsAt now a)) each.now) }
    ensures before { IfSome result (λ index. AllWithin (RestsAt now) each.now 0 index) }
    ensures none { IfNone result (All (RestsAt now) each.now) }
{
    for index in 0..each.len() {
        if !each[index].rests(now) {
            return Some(index);
        }
    }
    None
}

// Which of them is this address.
fn first_at(each: &[Listed], address: SocketAddr) -> Option<usize>
    ensures there { IfSome result (λ index. index < length each.now) }
    ensures own { IfSome result (HoldsAt (λ a. a.address ≡ address) each.now) }
    ensures none { IfNone result (All (λ a. a.address ≢ address) each.now) }
{
    for index in 0..each.len() {
        if each[index].is_at(address) {
            return Some(index);
        }
    }
    None
}

// What an event makes of the address at this index.
fn note_at(each: &mut [Listed], index: usize, event: Event, most: u32, until: Duration)
    requires { index < length each.old }
    ensures count { length each.new ≡ length each.old }
    ensures own { (d : Listed) → IsAfter event most (as_nanos until) (slice_index_or each.old index d) (slice_index_or each.new index d) }
    ensures others { (k : ℕ) (d : Listed) → k ≢ index → slice_index_or each.new k d ≡ slice_index_or each.old k d }
{
    each[index] = each[index].after(event, most, until);
}

// Leaves out the addresses that are not found. Whether there was one.
fn keep(each: &mut Vec<Listed>, found: &[SocketAddr]) -> bool {
    let before = each.len();
    each.retain(|listed| found.contains(&listed.address));
    each.len() < before
}

// Adds the addresses that are found and are not there yet.
fn add(each: &mut Vec<Listed>, found: &[SocketAddr]) -> Result<(), AllocError> {
    for address in found {
        if first_at(each, *address).is_none() {
            each.push(Listed::new(*address))?;
        }
    }
    Ok(())
}

impl AddressBook {
    /// No address is known. One rests for this time if so many values in a row are late.
    pub fn new(alloc: Global, most: u32, rest: Duration) -> AddressBook
        ensures none { result.each.items ≡ [] }
        ensures most { result.most ≡ most }
        ensures rest { result.rest ≡ rest }
    {
        AddressBook {
            each: Vec::new(alloc),
            trial: Duration::ZERO,
            most,
            rest,
        }
    }

    /// How many addresses there are.
    pub fn len(&self) -> usize
        ensures { result ≡ length self.now.each.items }
    {
        self.each.len()
    }

    /// How many of them rest, or have rested and were not tried since, 2^64 - 1 at most.
    pub fn rested(&self) -> usize
        ensures { result ≡ min (count_by (λ a. is_some a.until) self.now.each.items) (2 ^ 64 - 1) }
    {
        let mut count = 0usize;
        for listed in &self.each {
            count = count.saturating_add(listed.rested());
        }
        count
    }

    /// Whether this is one of them.
    pub fn has(&self, address: SocketAddr) -> bool
        ensures { IsFalse result → All (λ a. a.address ≢ address) self.now.each.items }
    {
        first_at(&self.each, address).is_some()
    }

    // Gives the address at this index.
    fn give(&mut self, index: usize, now: Duration) -> SocketAddr
        requires { index < length self.old.each.items }
        ensures given { IsGivenAt index (later_by self.old.rest now) result self.old.each.items self.new.each.items }
        ensures same { IsOfSameRests self.old self.new }
        ensures trial { self.new.trial ≡ self.old.trial }
    {
        let until = now.saturating_add(self.rest);
        let listed = self.each.remove(index);
        self.each.push_reserved(listed.given(until));
        listed.address
    }

    // Gives the address that was given longest ago, though all rest, if no value tried one within the last second.
    fn give_one(&mut self, now: Duration) -> Option<SocketAddr>
        requires { All (RestsAt now) self.old.each.items }
        ensures given { IfSome result (λ address. IsTrial now address self.old self.new) }
        ensures none { IfNone result (MayNotTry now self.old × (self.new ≡ self.old)) }
    {
        if self.each.is_empty() || now.as_nanos() < self.trial.as_nanos() {
            return None;
        }
        self.trial = now.saturating_add(Duration::from_secs(TRIAL_SECONDS));
        Some(self.give(0, now))
    }

    /// The address whose turn it is: of those that do not rest, the one that was given longest ago. If all rest, one is given to
    /// one value a second.
    pub fn next(&mut self, now: Duration) -> Option<SocketAddr>
        ensures given { IfSome result (λ address. IsInTurn now address self.old self.new ⊎ IsTrial now address self.old self.new) }
        ensures none { IfNone result (MayNotTry now self.old × (self.new ≡ self.old)) }
        ensures rests { IfNone result (All (RestsAt now) self.old.each.items) }
    {
        match first_awake(&self.each, now) {
            Some(index) => Some(self.give(index, now)),
            None => self.give_one(now),
        }
    }

    /// An event befell a connection or a value at this address.
    pub fn note(&mut self, address: SocketAddr, event: Event, now: Duration)
        ensures noted { IsNoted event address self.old.most (later_by self.old.rest now) self.old.each.items self.new.each.items }
        ensures same { IsOfSameRests self.old self.new }
        ensures trial { self.new.trial ≡ self.old.trial }
    {
        let until = now.saturating_add(self.rest);
        if let Some(index) = first_at(&self.each, address) {
            note_at(&mut self.each, index, event, self.most, until);
        }
    }

    /// Whether another address than this one does not rest.
    pub fn has_other(&self, address: SocketAddr, now: Duration) -> bool {
        self.each
            .iter()
            .any(|listed| listed.address != address && !listed.rests(now))
    }

    /// The service has these addresses, and no others. Whether one that it had is gone.
    pub fn update(&mut self, found: &[SocketAddr]) -> Result<bool, AllocError>
        ensures same { IsOfSameRests self.old self.new }
        ensures trial { self.new.trial ≡ self.old.trial }
    {
        let gone = keep(&mut self.each, found);
        add(&mut self.each, found)?;
        Ok(gone)
    }
}

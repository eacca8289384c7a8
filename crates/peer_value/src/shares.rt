//! How many values are under way, of each service and in all, and whether another one may be.
//!
//! It stands on vectors. It promises when there is room: a service that is not alone may have as many of its values under way as
//! are free besides, so that one whose values all hang leaves half of the room to the others, and a second one a quarter. A
//! service is alone where it has all groups of the source: a thread that has no room takes no job of another group either.
ghost use Rattle.std.specs.Prelude.{All, ◌≡◌, ◌≢◌, ◌↔◌, ◌+◌, ◌-◌, ◌^◌, ◌<◌, ◌≤◌, ℕ};
ghost use Rattle.std.specs.Prelude.{IfOk, IfSome, IsTrue, Some, length, replicate, slice_get, unwrap_or};
ghost use Rattle.peer_value.specs.Shares.{AreServices, HasRoom, IsAlone, IsFirstThere, IsOfSame};

use crate::endpoints::Endpoints;
use peer_origin::Endpoint;
use std::alloc::{AllocError, Global};

/// How many values are under way. A service is a host, by the number of the first endpoint there.
#[derive(Drop)]
pub struct Shares {
    // The service of each endpoint.
    services: Vec<usize>,
    // How many values of each service are under way.
    each: Vec<usize>,
    // Whether all that is under way is of one service, beside which no group of the source is.
    alone: bool,
    total: usize,
    most: usize,
}

// The number of the first endpoint at the same host.
fn first_there(endpoints: &[Endpoint], number: usize) -> usize
    requires { number < length endpoints.now }
    ensures { IsFirstThere endpoints.now number result }
{
    let host = endpoints[number].host.as_slice();
    for first in 0..number {
        if endpoints[first].host.as_slice() == host {
            return first;
        }
    }
    number
}

// The service of each endpoint.
fn services_of(alloc: Global, endpoints: &[Endpoint]) -> Result<Vec<usize>, AllocError>
    ensures { IfOk result (λ services. AreServices endpoints.now services.items) }
{
    let mut services = Vec::with_capacity(alloc, endpoints.len())?;
    for number in 0..endpoints.len() {
        services.push(first_there(endpoints, number))?;
    }
    Ok(services)
}

// Whether all these endpoints are of one service, which is the first one's.
fn is_one(services: &[usize]) -> bool
    ensures { IsTrue result ↔ All (λ service. service ≡ 0) services.now }
{
    services.iter().all(|service| *service == 0)
}

impl Shares {
    /// None is under way of the services of these endpoints, and so many may be.
    pub fn new(alloc: Global, endpoints: &Endpoints<'_>, most: usize) -> Result<Shares, AllocError>
        ensures most { IfOk result (λ shares. shares.most ≡ most) }
        ensures none { IfOk result (λ shares. shares.total ≡ 0) }
        ensures services { IfOk result (λ shares. AreServices endpoints.now.each.now shares.services.items) }
        ensures each { IfOk result (λ shares. shares.each.items ≡ replicate (length endpoints.now.each.now) 0) }
        ensures alone { IfOk result (λ shares.
            IsTrue shares.alone ↔ IsAlone endpoints.now.groups (length endpoints.now.each.now) shares.services.items) }
    {
        let each = vec![in alloc; 0; endpoints.each.len()]?;
        let services = services_of(alloc, endpoints.each)?;
        let alone = endpoints.cover_all() && is_one(&services);
        Ok(Shares {
            services,
            each,
            alone,
            total: 0,
            most,
        })
    }

    /// The service of an endpoint.
    pub fn service(&self, number: usize) -> usize
        ensures { result ≡ unwrap_or (slice_get self.now.services.items number) number }
    {
        match self.services.get(number) {
            Some(service) => *service,
            None => number,
        }
    }

    /// How many are under way in all.
    pub fn total(&self) -> usize
        ensures { result ≡ self.now.total }
    {
        self.total
    }

    /// How many of this service are under way.
    pub fn of_service(&self, service: usize) -> usize
        ensures { result ≡ unwrap_or (slice_get self.now.each.items service) 0 }
    {
        match self.each.get(service) {
            Some(own) => *own,
            None => 0,
        }
    }

    /// Whether no other one may be under way, of any service.
    pub fn is_full(&self) -> bool
        ensures { IsTrue result ↔ (self.now.most ≤ self.now.total) }
    {
        self.total >= self.most
    }

    /// Whether another one of this service may be under way.
    pub fn has_room(&self, service: usize) -> bool
        ensures { IsTrue result ↔ HasRoom self.now.alone self.now.each.items self.now.total self.now.most service }
    {
        let free = self.most.saturating_sub(self.total);
        match self.each.get(service) {
            Some(own) if !self.alone => *own < free,
            _ => free > 0,
        }
    }

    /// One more of this service is under way.
    pub fn begin(&mut self, service: usize)
        ensures same { IsOfSame self.old self.new }
        ensures total { self.old.total < 2 ^ 64 - 1 → self.new.total ≡ self.old.total + 1 }
        ensures own { IfSome (slice_get self.old.each.items service)
            (λ own. own < 2 ^ 64 - 1 → slice_get self.new.each.items service ≡ Some (own + 1)) }
        ensures others { (n : ℕ) → n ≢ service → slice_get self.new.each.items n ≡ slice_get self.old.each.items n }
    {
        self.total = self.total.saturating_add(1);
        if let Some(own) = self.each.get_mut(service) {
            *own = own.saturating_add(1);
        }
    }

    /// One of this service is under way no longer.
    pub fn end(&mut self, service: usize)
        ensures same { IsOfSame self.old self.new }
        ensures total { self.new.total ≡ self.old.total - 1 }
        ensures own { IfSome (slice_get self.old.each.items service) (λ own. slice_get self.new.each.items service ≡ Some (own - 1)) }
        ensures others { (n : ℕ) → n ≢ service → slice_get self.new.each.items n ≡ slice_get self.old.each.items n }
    {
        self.total = self.total.saturating_sub(1);
        if let Some(own) = self.each.get_mut(service) {
            *own = own.saturating_sub(1);
        }
    }
}

//! What becomes of a claim: its fill is waited for, and where one of strangers came, another is made.
//!
//! It stands on the claims of `peer_flight` and the waits of `peer_wait`. It promises the fill of a claim that is ready,
//! and a fill of the claim's own group and key in place of a stranger's. Of a fill that comes with a flight the clause says
//! that it is learned, not which it is.
ghost use Rattle.std.specs.Prelude.{◌≡◌, None, Ok, Some, IfNone, IfOk, IfSome};
ghost use Rattle.peer_flight.specs.Claims.{claim_place, Looked};
ghost use Rattle.peer_flight.specs.SingleFlight.{place_of};

use crate::pool::Pool;
use peer_flight::Claim;
use peer_source::{Fill, Source};
use peer_wait::{Notice, Waiter};
use std::alloc::{AllocError, Global};
use std::sync::Wait;
use std::sync::ledger::Ledger;

impl<S: Source, L: Ledger> Pool<S, L> {
    ghost use Rattle.peer_fill.specs.Pools.{source_of};

    // What tells of the claim's fill.
    fn notice_of(&self, claim: &Claim<S>) -> &Notice {
        match claim {
            Claim::Ready(_) => self.signals.fill(0),
            Claim::Pending(flight) => self.signals.fill(flight.number()),
        }
    }

    /// The fill of a claim of this pool, once it is there. It waits for ever where no worker runs.
    pub fn wait_for<'a, R: Wait>(&self, rt: &R, claim: &'a Claim<S>) -> &'a Fill<S>
        ensures { Looked claim.now None (Some result.now) (Some result.now) }
    {
        let mut note = claim.note();
        let mut waiter = Waiter::new(self.notice_of(claim));
        for _ in rt.forever() {
            if let Some(fill) = claim.look(&mut note) {
                return fill;
            }
            waiter.pause(rt);
        }
        unreachable!()
    }

    /// A fill of the claim's group and key, where the fill that came is of others.
    pub fn refill(
        &self,
        alloc: Global,
        claim: &Claim<S>,
        fill: &Fill<S>,
    ) -> Result<Option<Fill<S>>, AllocError>
        ensures own { claim_place claim.now ≡ place_of fill.now.group fill.now.key → result ≡ Ok None }
        ensures none { IfOk result (λ made. IfNone made (claim_place claim.now ≡ place_of fill.now.group fill.now.key)) }
        ensures place { IfOk result (λ made. IfSome made (λ f. place_of f.group f.key ≡ claim_place claim.now)) }
        ensures answer { IfOk result (λ made. IfSome made (λ f. IfSome f.answer (S.answers (source_of self.now) f.group f.key))) }
    {
        if fill.group() == claim.group() && fill.key() == claim.key() {
            return Ok(None);
        }
        let key = claim.key().share()?;
        Ok(Some(Fill::run(alloc, &self.source, claim.group(), key)))
    }
}

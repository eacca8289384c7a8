//! What a look-up of a name came to.

use std::net::SocketAddr;

/// What a look-up of a name came to, which has addresses already.
#[derive(Clone, Copy, Debug, PartialEq, Eq)]
pub enum LookUp {
    /// It has the addresses that it had.
    Same,
    /// It has others.
    Changed,
    /// None was found, or memory was refused.
    Failed,
}

// Whether each of these addresses is among those.
fn are_among(addresses: &[SocketAddr], those: &[SocketAddr]) -> bool {
    for address in addresses {
        if !those.contains(address) {
            return false;
        }
    }
    true
}

/// What a look-up came to that found these addresses in the place of those. Services that deal addresses out in turn are at the
/// same ones in another order.
pub(crate) fn look_up_of(found: &[SocketAddr], before: &[SocketAddr]) -> LookUp {
    if are_among(found, before) && are_among(before, found) {
        LookUp::Same
    } else {
        LookUp::Changed
    }
}

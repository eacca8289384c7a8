//! How pools are refused.
ghost use Rattle.std.specs.Prelude.{◌≡◌};

use super::numbering::Numbering;
use peer_fill::{OpenFault, Pool};
use std::alloc::Global;
use std::marker::Brand;
use std::sync::ledger::{Blank, Ledger};
use test_support::seed;

// The place of the fault in `OpenFault`, from 1, or 0 where the pool was opened.
fn fault_over<L: Ledger>(alloc: Global, numbers: [usize; 3], blank: Blank) -> u8
    requires name { blank.name ≡ L.name }
    requires parts { (blank.parts ≡ L.parts) × (blank.parts ≡ 16) }
{
    let Some(seed) = seed() else {
        return 9;
    };
    let [groups, workers, conns] = numbers;
    let source = Numbering::new(groups, 0, 0);
    match Pool::<Numbering, L>::open(alloc, source, 0, seed, workers, conns, blank) {
        Ok(_) => 0,
        Err(OpenFault::Workers) => 1,
        Err(OpenFault::Conns) => 2,
        Err(OpenFault::Groups) => 3,
        Err(OpenFault::Memory) => 4,
    }
}

// The same with a ledger of its own.
fn fault_of(alloc: Global, numbers: [usize; 3]) -> u8 {
    fault_over::<Brand>(alloc, numbers, Blank::new(16))
}

// The fault for each of these numbers of groups, workers and connections.
fn faults<const N: usize>(alloc: Global, numbers: [[usize; 3]; N]) -> [u8; N] {
    let mut faults = [0; N];
    for i in 0..N {
        faults[i] = fault_of(alloc, numbers[i]);
    }
    faults
}

// Groups, workers and connections: each fault alone, and the first of several.
#[test]
fn the_first_fault_is_told(rt: HostRuntime) {
    let alone = [
        [3, 0, 2],
        [3, 17, 2],
        [3, 1, 0],
        [3, 1, 17],
        [65, 1, 2],
        [0, 1, 1],
    ];
    assert_eq!(rt; faults(rt.alloc(), alone), [1, 1, 2, 2, 3, 3]);
    let several = [[65, 0, 0], [65, 17, 0], [65, 1, 0], [64, 16, 16]];
    assert_eq!(rt; faults(rt.alloc(), several), [1, 1, 2, 0]);
}

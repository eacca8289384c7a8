//! Connections over texts made by chance, in pieces made by chance, beside the plain model.

use super::demos::is_told;
use super::runs::{READS, served};
use peer_conn::End;
use std::alloc::Global;
use std::process::Abort;
use stream_model::{Dice, Outcome, outcome_of};

// The texts of each seed.
const TEXTS: usize = 100;

// Whether a connection over these pieces writes what the model says, and ends so.
fn is_as_modelled(alloc: Global, pieces: Vec<Vec<u8>>, outcome: &Outcome) -> bool {
    let served = served(alloc, pieces, false, READS);
    let end = if outcome.is_cut { End::Cut } else { End::Clean };
    is_told(&served, &outcome.replies, end)
}

// Demands what the model says of a text.
fn compare_one(rt: &(impl Abort + AllocGlobal), dice: &mut Dice, text: &[u8]) {
    let outcome = outcome_of(rt.alloc(), text).expect(rt, "memory");
    let pieces = dice.pieces(rt.alloc(), text).expect(rt, "memory");
    let same = is_as_modelled(rt.alloc(), pieces, &outcome);
    let shown = text.escape_ascii();
    assert!(rt; same, "at {shown}");
}

#[test]
fn streams_of_two_seeds(rt: HostRuntime) {
    for seed in [1, 20_261_122] {
        let mut dice = Dice::new(seed);
        for _ in 0..TEXTS {
            let text = dice.text(rt.alloc()).expect(&rt, "memory");
            compare_one(&rt, &mut dice, &text);
        }
    }
}

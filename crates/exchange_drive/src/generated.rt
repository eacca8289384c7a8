//! Texts made by chance, through an exchange and beside the plain model.
ghost use Rattle.std.specs.Prelude.{◌≡◌};

use crate::driven::{Driven, Steps};
use peer_exchange::End;
use peer_source::DemoSource;
use std::alloc::{AllocError, Global};
use std::sync::Wait;
use std::sync::ledger::{Blank, Ledger};
use stream_model::{Dice, outcome_of};
use test_support::open_pool;

/// How many texts were compared, and which were not answered as the model says: how many, and the first one's number from 1.
#[derive(Clone, Copy, Debug, PartialEq, Eq)]
pub struct Compared {
    pub checks: u64,
    pub failures: u64,
    pub first: u64,
}

impl Compared {
    // One more text.
    fn and(self, same: bool) -> Compared {
        let checks = self.checks.saturating_add(1);
        if same {
            return Compared { checks, ..self };
        }
        Compared {
            checks,
            failures: self.failures.saturating_add(1),
            first: if self.failures == 0 {
                checks
            } else {
                self.first
            },
        }
    }
}

// How many bytes come and go in one turn at most.
fn steps_of(dice: &mut Dice) -> Steps {
    let sizes = [3, 50, 400, 20_000];
    Steps {
        input: sizes[dice.roll(4)],
        output: sizes[dice.roll(4)],
    }
}

// Whether the next text is answered as the model says.
fn compare_one<L: Ledger, H: Wait>(
    rt: &H,
    alloc: Global,
    driven: &mut Driven<'_, L>,
    dice: &mut Dice,
) -> Result<bool, AllocError> {
    let text = dice.text(alloc)?;
    let outcome = outcome_of(alloc, &text)?;
    let steps = steps_of(dice);
    driven.begin(alloc);
    let ended = driven.drive_by_chance(rt, alloc, dice, &text, steps)?;
    let end = if outcome.is_cut { End::Cut } else { End::Clean };
    Ok(ended == Some(end) && driven.sent() == outcome.replies.as_slice())
}

// The same for so many texts.
fn compare_all<L: Ledger, H: Wait>(
    rt: &H,
    alloc: Global,
    driven: &mut Driven<'_, L>,
    dice: &mut Dice,
    count: u64,
) -> Result<Compared, AllocError> {
    let mut compared = Compared {
        checks: 0,
        failures: 0,
        first: 0,
    };
    for _ in 0..count {
        compared = compared.and(compare_one(rt, alloc, driven, dice)?);
    }
    Ok(compared)
}

/// So many texts from a seed, through exchanges over one pool whose caches keep so many bytes. None where memory was refused.
pub fn compare<L: Ledger, H: Wait>(
    rt: &H,
    alloc: Global,
    seed: u64,
    count: u64,
    cache_bytes: u64,
    blank: Blank,
) -> Option<Compared>
    requires name { blank.name ≡ L.name }
    requires parts { (blank.parts ≡ L.parts) × (blank.parts ≡ 16) }
{
    let opened = open_pool::<DemoSource, L>(alloc, DemoSource, cache_bytes, 1, 1, blank);
    let Some((pool, lists)) = opened else {
        return None;
    };
    let mut driven = Driven::new(alloc, &pool, lists)?;
    let mut dice = Dice::new(seed);
    compare_all(rt, alloc, &mut driven, &mut dice, count).ok()
}

//! Exchanges over texts made by chance, beside the plain model: bytes come and go in odd pieces, the client's end comes at
//! odd places, and fills come in another order than their jobs.

use exchange_drive::{Compared, compare};
use std::marker::Brand;
use std::sync::ledger::Blank;

// What is expected of so many texts.
fn all_same(checks: u64) -> Option<Compared> {
    Some(Compared {
        checks,
        failures: 0,
        first: 0,
    })
}

#[test]
fn an_exchange_answers_generated_texts_as_the_model_does(rt: HostRuntime) {
    for (seed, cache_bytes) in [(20_261_125, 0), (7, 100)] {
        let blank = Blank::new(16);
        let compared = compare::<Brand, HostRuntime>(
            &rt,
            rt.alloc(),
            seed,
            200,
            cache_bytes,
            blank,
        );
        assert_eq!(rt; compared, all_same(200), "seed {seed}");
    }
}

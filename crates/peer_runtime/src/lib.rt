//! What a server asks of its runtime: sockets, time and threads (`Network`, `Host`), how long it waits for its clients (`Limits`), and
//! how a thread is woken that waits in a poll of `mio` (`PollWaker`, `PollWakers`), with what the system says of a stream, a stream that
//! notes what it carries (`Wire`), and the keys of those whom a loop serves (`keys_of`).
//!
//! It stands on the handles, the durations and the atomics of `std`, on `mio`, on `slab` and on `peer_view`. It promises little: a type
//! that has the parts of a bound has the whole, the limits are numbers alone, what was sent and what came on a `Wire` is what its writes
//! took and its reads gave, and `keys_of` leaves out no value. That no wake-up is lost no clause says: it is argued where it is done, and
//! tested.
#![tactic(auto)]

mod faults;
mod host;
mod keys;
mod limits;
mod poll_waker;
mod poll_wakers;
mod readiness;
mod wire;

pub use faults::{lacks_files, was_interrupted, would_block};
pub use host::{Host, Network};
pub use keys::keys_of;
pub use limits::{Limits, MAX_SKIPPED};
pub use poll_waker::{PollWaker, WOKEN};
pub use poll_wakers::{OwnWaker, PollWakers};
pub use readiness::Readiness;
pub use wire::Wire;

//! The flags of a signal.

use peer_lane::Signal;

// Whether the signal is finished, and whether it is stopped.
fn flags(signal: &Signal) -> [bool; 2] {
    [signal.is_finished(), signal.is_stopped()]
}

#[test]
fn flags_are_raised_one_by_one(rt: HostRuntime) {
    let signal = Signal::new();
    let new = flags(&signal);
    signal.stop();
    let stopped = flags(&signal);
    signal.finish();
    assert_eq!(rt;
        [new, stopped, flags(&signal)],
        [[false, false], [false, true], [true, true]]
    );
}

//! What clients of a fetch thread ask for, and what they and the origin are to see.

use super::asking::{Plan, Texts};
use super::lookup::{LOOPBACK, TWO_ADDRESSES};
use super::running::{Groups, Seen, Setting, patient, see_over};
use super::scripted::Scripted;
use peer_fetch::FetchThreadSettings;
use peer_fill::Report;
use peer_origin::{FetchSettings, Wires};
use peer_stats::FailureCounts;
use std::alloc::Global;
use std::marker::Brand;
use std::net::{Net, TcpListener, TcpStream};
use std::sync::Wait;
use std::sync::ledger::Blank;
use std::test::Fail;
use std::thread::Threads;
use std::time::{Clock, Duration};
use test_support::all_called;

// A group of one service.
const ALONE: Groups<'static> = &[(b"echo", LOOPBACK)];

// The same, whose name has two addresses.
const AT_TWO_ADDRESSES: Groups<'static> = &[(b"echo", TWO_ADDRESSES)];

// Two groups of one service.
const OF_ONE_SERVICE: Groups<'static> = &[(b"echo", LOOPBACK), (b"other", LOOPBACK)];

// Groups of two services.
const BESIDE_HUNG: Groups<'static> = &[(b"echo", LOOPBACK), (b"hung", TWO_ADDRESSES)];

// What an origin is to see: how many requests, and of how many that were open at once at least and at most.
#[derive(Clone, Copy)]
struct Load {
    requests: usize,
    open: (usize, usize),
}

impl Load {
    // So many requests, one after the other.
    const fn in_turn(requests: usize) -> Option<Load> {
        Some(Load {
            requests,
            open: (1, 1),
        })
    }

    // So many requests, of which so many at least are open at once.
    const fn together(requests: usize, least: usize) -> Option<Load> {
        Some(Load {
            requests,
            open: (least, requests),
        })
    }

    // Whether it was seen.
    fn fits(self, seen: &Seen) -> bool {
        let (least, most) = self.open;
        seen.requests == self.requests && least <= seen.open && seen.open <= most
    }
}

// Each kind of reply. `more` and `plain` show that what came behind a reply is no value of the next key.
const ROWS: Texts<'static> = &[
    (b"plain", b"plain"),
    (b"chunked", b"chunked"),
    (b"early", b"early"),
    (b"missing", b"no such key"),
    (b"broken", b"origin answered 500"),
    (b"cut", b"origin closed the connection"),
    (b"cut-head", b"origin closed the connection"),
    (b"until-close", b"to the end"),
    (b"malformed", b"origin sent a bad reply"),
    (b"long", b"value too long"),
    (b"more", b"more"),
    (b"plain", b"plain"),
];

// `stale` is asked for once more, on a new connection; `silent` is, behind `plain`, and no third time.
const SILENT: Texts<'static> = &[
    (b"plain", b"plain"),
    (b"stale", b"stale"),
    (b"silent", b"origin closed the connection"),
    (b"plain", b"plain"),
];

// An origin that ends while a value is under way.
const ENDING: Texts<'static> = &[
    (b"plain", b"plain"),
    (b"end", b"origin cannot be reached"),
    (b"plain", b"origin cannot be reached"),
];

// A value that does not come in its time.
const LATE: Texts<'static> = &[(b"late", b"origin timed out"), (b"plain", b"plain")];

// A value that comes later than an address is given up.
const SLOW: Texts<'static> = &[(b"slow", b"slow"), (b"plain", b"plain")];

// `closing` and `missing-closing` say that their connections are closed, which stay open; on a kept connection `stale` would be
// asked for twice.
const CLOSING: Texts<'static> = &[
    (b"closing", b"closing"),
    (b"stale", b"stale"),
    (b"missing-closing", b"no such key"),
    (b"stale-too", b"stale-too"),
];

// Values from an origin whose first address refuses.
// What a scripted network gives for each key.
const SCRIPTED: Texts<'static> = &[(b"plain", b"script"), (b"chunked", b"script")];

const PLAIN: Texts<'static> = &[(b"plain", b"plain"), (b"chunked", b"chunked")];

// Nothing was counted.
const NO_FAILURE: FailureCounts = FailureCounts {
    no_such_key: 0,
    status: 0,
    unreached: 0,
    late: 0,
    lost: 0,
    malformed: 0,
    too_long: 0,
    memory: 0,
};

// A client that asks for these texts.
fn of_texts(texts: Texts<'_>, settings: FetchThreadSettings) -> Setting<'_> {
    Setting {
        groups: ALONE,
        hold: 0,
        plan: Plan {
            hung: 0,
            texts,
            in_turn: 0,
            together: 0,
        },
        settings,
    }
}

// A client that asks for so many numbers in turn and for so many at once, of an origin that holds its replies back until so
// many requests are open.
fn of_numbers(in_turn: u32, together: u32, hold: usize) -> Setting<'static> {
    Setting {
        groups: ALONE,
        hold,
        plan: Plan {
            hung: 0,
            texts: &[],
            in_turn,
            together,
        },
        settings: patient(),
    }
}

// A client that asks for so many keys of a service that hangs, and then for these texts of another one, where four values may
// be under way.
fn of_hung(hung: u32, texts: Texts<'_>, settings: FetchThreadSettings) -> Setting<'_> {
    let setting = of_texts(texts, settings);
    Setting {
        groups: BESIDE_HUNG,
        plan: Plan {
            hung,
            ..setting.plan
        },
        settings: FetchThreadSettings {
            under_way: 4,
            ..settings
        },
        ..setting
    }
}

// A thread that gives no value up while its origin runs.
fn unhurried() -> FetchThreadSettings {
    let patient = patient();
    FetchThreadSettings {
        fetch: FetchSettings {
            value: Duration::from_secs(3600),
            ..patient.fetch
        },
        ..patient
    }
}

// A thread that makes each request on a connection of its own.
fn by_itself() -> FetchThreadSettings {
    let patient = patient();
    FetchThreadSettings {
        fetch: FetchSettings {
            connection_for_each: true,
            ..patient.fetch
        },
        ..patient
    }
}

// A thread that gives a value up soon, and an address never.
fn hasty() -> FetchThreadSettings {
    let patient = patient();
    FetchThreadSettings {
        fetch: FetchSettings {
            value: Duration::from_secs(3),
            wait: Duration::from_secs(3),
            rest_after: u32::MAX,
            ..patient.fetch
        },
        ..patient
    }
}

// A thread that gives an address up at once, and no value.
fn brisk() -> FetchThreadSettings {
    let patient = patient();
    FetchThreadSettings {
        fetch: FetchSettings {
            connect: Duration::from_millis(100),
            ..patient.fetch
        },
        ..patient
    }
}

// What is seen of a setting, and the report of its pool.
fn see<H: Net<Listener = TcpListener, Stream = TcpStream> + Threads + Wait + Clock + Sync + Wires>(
    rt: &H,
    alloc: Global,
    setting: Setting<'_>,
) -> Option<(Seen, Option<Report>)> {
    see_over::<Brand, H>(rt, alloc, setting, Blank::new(16))
}

// Whether a client is answered as it is to be, each key leads a call, and the origin sees this load, if it is looked at.
fn is_right<
    H: Net<Listener = TcpListener, Stream = TcpStream> + Threads + Wait + Clock + Sync + Wires,
>(rt: &H, alloc: Global, setting: Setting<'_>, load: Option<Load>) -> bool {
    match see(rt, alloc, setting) {
        Some((seen, report)) => {
            seen.answered.is_right()
                && report == Some(all_called(setting.plan.asks()))
                && load.is_none_or(|load| load.fits(&seen))
        }
        None => false,
    }
}

#[test]
fn each_reply_is_answered_as_it_is_to_be(rt: HostRuntime) -> Result<(), Fail> {
    for (what, setting, load) in [
        (
            "each kind of reply",
            of_texts(ROWS, patient()),
            Load::in_turn(12),
        ),
        (
            "a request is made once more, and not twice",
            of_texts(SILENT, patient()),
            Load::in_turn(6),
        ),
        (
            "a request on a connection of its own is made once",
            of_texts(SILENT, by_itself()),
            Load::in_turn(4),
        ),
        (
            "an origin ends under way",
            of_texts(ENDING, patient()),
            None,
        ),
        (
            "a value that does not come is given up",
            of_texts(LATE, hasty()),
            None,
        ),
        (
            "the time of an address is not that of a value",
            of_texts(SLOW, brisk()),
            Load::in_turn(2),
        ),
        (
            "no connection is kept that its origin is to close",
            of_texts(CLOSING, patient()),
            Load::in_turn(4),
        ),
    ] {
        assert!(rt; is_right(&rt, rt.alloc(), setting, load), "{what}");
    }
    Ok(())
}

#[test]
fn each_service_is_asked_as_it_is_to_be(rt: HostRuntime) -> Result<(), Fail> {
    for (what, setting, load) in [
        (
            "the second address is tried where the first refuses",
            Setting {
                groups: AT_TWO_ADDRESSES,
                ..of_texts(PLAIN, patient())
            },
            Load::in_turn(2),
        ),
        (
            "a service that hangs does not hold up another one",
            of_hung(40, PLAIN, unhurried()),
            None,
        ),
        (
            "two hundred values are under way",
            of_numbers(0, 300, 200),
            Load::together(300, 200),
        ),
        (
            "two groups of one service have all that may be under way",
            Setting {
                groups: OF_ONE_SERVICE,
                ..of_numbers(0, 300, 200)
            },
            Load::together(300, 200),
        ),
        (
            "each of a thousand keys wakes the thread that sleeps",
            of_numbers(1000, 0, 0),
            Load::in_turn(1000),
        ),
    ] {
        assert!(rt; is_right(&rt, rt.alloc(), setting, load), "{what}");
    }
    Ok(())
}

// What is counted of a client's values that were not fetched.
fn failures_of<
    H: Net<Listener = TcpListener, Stream = TcpStream> + Threads + Wait + Clock + Sync + Wires,
>(rt: &H, alloc: Global, setting: Setting<'_>) -> Option<FailureCounts> {
    match see(rt, alloc, setting) {
        Some((seen, _)) => Some(seen.failures),
        None => None,
    }
}

#[test]
fn each_value_that_is_not_fetched_is_counted_by_why(rt: HostRuntime) {
    let counted = failures_of(&rt, rt.alloc(), of_texts(ROWS, patient()));
    assert!(rt;
        counted
            == Some(FailureCounts {
                no_such_key: 1,
                status: 1,
                lost: 2,
                malformed: 1,
                too_long: 1,
                ..NO_FAILURE
            })
    );
    let of_an_end = failures_of(&rt, rt.alloc(), of_texts(ENDING, patient()));
    assert!(rt;
        of_an_end
            == Some(FailureCounts {
                unreached: 2,
                ..NO_FAILURE
            })
    );
    // Those that wait are given up in their time too, but for the few that had room meanwhile.
    let of_hung = failures_of(&rt, rt.alloc(), of_hung(40, &LATE[..1], hasty()));
    assert!(rt; of_hung.is_some_and(|counts| counts.late >= 30));
}

#[test]
fn values_are_what_the_network_gives(rt: HostRuntime) {
    let alloc = rt.alloc();
    let scripted = Scripted { system: rt };
    let setting = of_texts(SCRIPTED, patient());
    assert!(scripted.system; is_right(&scripted, alloc, setting, Load::in_turn(2)));
}

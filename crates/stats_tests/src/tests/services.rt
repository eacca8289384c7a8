//! What the page tells of services.

use crate::tests::worked::{BUILD, NUMBERS};
use peer_stats::{
    ConnectCounts, ConnectEnd, Counters, ServedService, ServiceCounts, ServiceHeld, StatusCounts,
    metrics_page,
};
use std::alloc::Global;
use std::test::Fail;

// A service whose numbers follow on this one.
fn service_from(name: &[u8], first: u64) -> ServiceCounts<'_> {
    ServiceCounts {
        name,
        held: ServiceHeld {
            busy: first,
            kept: first.wrapping_add(1),
            waiting: first.wrapping_add(2),
            used: first.wrapping_add(3),
            resting: first.wrapping_add(4),
        },
        connects: ConnectCounts {
            made: first.wrapping_add(5),
            refused: first.wrapping_add(6),
            late: first.wrapping_add(7),
            failed: first.wrapping_add(8),
        },
        replies: StatusCounts {
            ok: first.wrapping_add(9),
            no_such_key: first.wrapping_add(10),
            informational: first.wrapping_add(11),
            successful: first.wrapping_add(12),
            redirection: first.wrapping_add(13),
            client_error: first.wrapping_add(14),
            server_error: first.wrapping_add(15),
        },
        second_requests: first.wrapping_add(16),
        lookups_ok: first.wrapping_add(17),
        lookups_failed: first.wrapping_add(18),
    }
}

// What the page tells of two services.
const TWO: &str =
    r#"# HELP peer_front_origin_connections Connections to the service: busy, with a value under way; kept, for another one.
# TYPE peer_front_origin_connections gauge
peer_front_origin_connections{service="a:80",state="busy"} 100
peer_front_origin_connections{service="b:80",state="busy"} 200
peer_front_origin_connections{service="a:80",state="kept"} 101
peer_front_origin_connections{service="b:80",state="kept"} 201
# HELP peer_front_origin_waiting Keys that wait in fetchers until the service may be asked for them.
# TYPE peer_front_origin_waiting gauge
peer_front_origin_waiting{service="a:80"} 102
peer_front_origin_waiting{service="b:80"} 202
# HELP peer_front_origin_addresses Addresses of the service, as each fetcher that has asked it knows them: used, or resting since values or connections failed.
# TYPE peer_front_origin_addresses gauge
peer_front_origin_addresses{service="a:80",state="used"} 103
peer_front_origin_addresses{service="b:80",state="used"} 203
peer_front_origin_addresses{service="a:80",state="resting"} 104
peer_front_origin_addresses{service="b:80",state="resting"} 204
# HELP peer_front_origin_connects_total Connections to the service that were begun, by how that ended: ok, refused, timeout, other.
# TYPE peer_front_origin_connects_total counter
peer_front_origin_connects_total{service="a:80",result="ok"} 105
peer_front_origin_connects_total{service="b:80",result="ok"} 205
peer_front_origin_connects_total{service="a:80",result="refused"} 106
peer_front_origin_connects_total{service="b:80",result="refused"} 206
peer_front_origin_connects_total{service="a:80",result="timeout"} 107
peer_front_origin_connects_total{service="b:80",result="timeout"} 207
peer_front_origin_connects_total{service="a:80",result="other"} 108
peer_front_origin_connects_total{service="b:80",result="other"} 208
# HELP peer_front_origin_replies_total Replies of the service by their status: 200, 404, and the others by classes.
# TYPE peer_front_origin_replies_total counter
peer_front_origin_replies_total{service="a:80",code="200"} 109
peer_front_origin_replies_total{service="b:80",code="200"} 209
peer_front_origin_replies_total{service="a:80",code="404"} 110
peer_front_origin_replies_total{service="b:80",code="404"} 210
peer_front_origin_replies_total{service="a:80",code="1xx"} 111
peer_front_origin_replies_total{service="b:80",code="1xx"} 211
peer_front_origin_replies_total{service="a:80",code="2xx"} 112
peer_front_origin_replies_total{service="b:80",code="2xx"} 212
peer_front_origin_replies_total{service="a:80",code="3xx"} 113
peer_front_origin_replies_total{service="b:80",code="3xx"} 213
peer_front_origin_replies_total{service="a:80",code="4xx"} 114
peer_front_origin_replies_total{service="b:80",code="4xx"} 214
peer_front_origin_replies_total{service="a:80",code="5xx"} 115
peer_front_origin_replies_total{service="b:80",code="5xx"} 215
# HELP peer_front_origin_second_requests_total Requests that were made once more, since a kept connection had ended.
# TYPE peer_front_origin_second_requests_total counter
peer_front_origin_second_requests_total{service="a:80"} 116
peer_front_origin_second_requests_total{service="b:80"} 216
# HELP peer_front_lookups_total Look-ups of the name of the service while it serves, by how they ended: ok, failed.
# TYPE peer_front_lookups_total counter
peer_front_lookups_total{service="a:80",result="ok"} 117
peer_front_lookups_total{service="b:80",result="ok"} 217
peer_front_lookups_total{service="a:80",result="failed"} 118
peer_front_lookups_total{service="b:80",result="failed"} 218
# HELP peer_front_connections_limit "#;

#[test]
fn each_service_has_its_name_and_its_numbers(rt: HostRuntime) -> Result<(), Fail> {
    let services = [service_from(b"a:80", 100), service_from(b"b:80", 200)];
    let page = metrics_page(rt.alloc(), &NUMBERS, &[], &[], &services, BUILD)?;
    let text = String::from_utf8(page)?;
    let told = text.as_str().contains(TWO);
    assert!(rt; told);
    Ok(())
}

// What a thread has of a service.
fn held(busy: u64, kept: u64, waiting: u64) -> ServiceHeld {
    ServiceHeld {
        busy,
        kept,
        waiting,
        used: 2,
        resting: 1,
    }
}

// Services of the numbers 0 and 3, by their names.
fn two_services(alloc: Global) -> Result<Vec<ServedService>, Fail> {
    let mut services = Vec::new(alloc);
    for (name, number) in [(b"a:80".as_slice(), 0), (b"b:80".as_slice(), 3)] {
        let name = name.to_vec(alloc)?;
        services.push(ServedService { name, number })?;
    }
    Ok(services)
}

// What two threads have is added up, also once they have less.
#[test]
fn what_threads_have_of_a_service_is_added_up(rt: HostRuntime) -> Result<(), Fail> {
    let counters = Counters::new();
    let slots = counters.services();
    slots.move_held(3, ServiceHeld::NONE, held(5, 0, 9));
    slots.move_held(3, ServiceHeld::NONE, held(2, 1, 0));
    slots.move_held(3, held(5, 0, 9), held(1, 4, 0));
    let served = two_services(rt.alloc())?;
    let services = counters.read_services(rt.alloc(), served.as_slice())?;
    let first = services.as_slice().first().map(|service| service.held);
    let second = services.as_slice().last().map(|service| service.held);
    drop(services);
    drop(served);
    assert_eq!(rt; first, Some(ServiceHeld::NONE));
    assert_eq!(rt;
        second,
        Some(ServiceHeld {
            busy: 3,
            kept: 5,
            waiting: 0,
            used: 4,
            resting: 2,
        })
    );
    Ok(())
}

#[test]
fn what_becomes_of_requests_is_counted(rt: HostRuntime) {
    let counters = Counters::new();
    let slots = counters.services();
    for status in [200, 404, 199, 201, 299, 301, 400, 403, 499, 500, 999] {
        slots.count_reply(1, status);
    }
    for end in [
        ConnectEnd::Made,
        ConnectEnd::Made,
        ConnectEnd::Refused,
        ConnectEnd::Late,
        ConnectEnd::Failed,
    ] {
        slots.count_connect(1, end);
    }
    slots.count_second_request(1);
    slots.count_lookup(1, true);
    slots.count_lookup(1, true);
    slots.count_lookup(1, false);
    let counts = slots.read(1, b"s");
    let replies = counts.replies;
    assert_eq!(rt;
        [
            replies.ok,
            replies.no_such_key,
            replies.informational,
            replies.successful,
            replies.redirection,
            replies.client_error,
            replies.server_error
        ],
        [1, 1, 1, 2, 1, 3, 2]
    );
    let connects = counts.connects;
    assert_eq!(rt;
        [
            connects.made,
            connects.refused,
            connects.late,
            connects.failed
        ],
        [2, 1, 1, 1]
    );
    assert_eq!(rt;
        [
            counts.second_requests,
            counts.lookups_ok,
            counts.lookups_failed
        ],
        [1, 2, 1]
    );
}

//! What the page tells of services.
ghost use Rattle.std.specs.Prelude.{◌≡◌, ◌++◌, codes, flat_map, OnOk};
ghost use Rattle.peer_stats.specs.Services.{connects_text, each_service_text, held_addresses_text, held_connections_text};
ghost use Rattle.peer_stats.specs.Services.{held_keys_text, lookups_text, second_requests_text, service_number};
ghost use Rattle.peer_stats.specs.Services.{service_text, services_text, statuses_text};

use crate::family::{put_family, put_number};
use crate::label::put_label;
use crate::service_counts::ServiceCounts;
use std::alloc::AllocError;

// A number that the page tells of each service.
#[derive(Clone, Copy)]
enum ServiceNumber {
    Busy,
    Kept,
    Waiting,
    Used,
    Resting,
    Made,
    Refused,
    Late,
    Failed,
    Ok,
    NoSuchKey,
    Informational,
    Successful,
    Redirection,
    ClientError,
    ServerError,
    SecondRequests,
    LookupsOk,
    LookupsFailed,
}

impl ServiceNumber {
    // This number of a service.
    fn of(self, service: &ServiceCounts<'_>) -> u64
        ensures { result ≡ service_number self service.now }
    {
        match self {
            ServiceNumber::Busy => service.held.busy,
            ServiceNumber::Kept => service.held.kept,
            ServiceNumber::Waiting => service.held.waiting,
            ServiceNumber::Used => service.held.used,
            ServiceNumber::Resting => service.held.resting,
            ServiceNumber::Made => service.connects.made,
            ServiceNumber::Refused => service.connects.refused,
            ServiceNumber::Late => service.connects.late,
            ServiceNumber::Failed => service.connects.failed,
            ServiceNumber::Ok => service.replies.ok,
            ServiceNumber::NoSuchKey => service.replies.no_such_key,
            ServiceNumber::Informational => service.replies.informational,
            ServiceNumber::Successful => service.replies.successful,
            ServiceNumber::Redirection => service.replies.redirection,
            ServiceNumber::ClientError => service.replies.client_error,
            ServiceNumber::ServerError => service.replies.server_error,
            ServiceNumber::SecondRequests => service.second_requests,
            ServiceNumber::LookupsOk => service.lookups_ok,
            ServiceNumber::LookupsFailed => service.lookups_failed,
        }
    }
}

// Appends a number of a service, with its name and the labels that follow the service's.
fn put_service(
    page: &mut Vec<u8>,
    name: &[u8],
    labels: &[u8],
    number: ServiceNumber,
    service: &ServiceCounts<'_>,
) -> Result<(), AllocError>
    ensures { OnOk result (page.new.items ≡ page.old.items ++ service_text name.now labels.now number service.now) }
{
    page.extend_from_slice(name)?;
    page.extend_from_slice(b"{service=\"")?;
    put_label(page, service.name)?;
    page.extend_from_slice(b"\"")?;
    page.extend_from_slice(labels)?;
    page.extend_from_slice(b"} ")?;
    put_number(page, number.of(service))?;
    Ok(())
}

// Appends that number of each service.
fn put_each_service(
    page: &mut Vec<u8>,
    name: &[u8],
    labels: &[u8],
    number: ServiceNumber,
    services: &[ServiceCounts<'_>],
) -> Result<(), AllocError>
    ensures { OnOk result (page.new.items ≡ page.old.items ++ each_service_text name.now labels.now number services.now) }
{
    for service in services {
        put_service(page, name, labels, number, service)?;
    }
    Ok(())
}

// Appends such numbers, each with its labels.
fn put_service_rows(
    page: &mut Vec<u8>,
    name: &[u8],
    rows: &[(&[u8], ServiceNumber)],
    services: &[ServiceCounts<'_>],
) -> Result<(), AllocError>
    ensures { OnOk result (page.new.items ≡ page.old.items ++ flat_map (λ r. each_service_text name.now r.0.now r.1 services.now) rows.now) }
{
    for row in rows {
        put_each_service(page, name, row.0, row.1, services)?;
    }
    Ok(())
}

// Appends of each service its connections.
fn put_held_connections(
    page: &mut Vec<u8>,
    services: &[ServiceCounts<'_>],
) -> Result<(), AllocError>
    ensures { OnOk result (page.new.items ≡ page.old.items ++ held_connections_text services.now) }
{
    put_family(
        page,
        b"peer_front_origin_connections",
        b"gauge",
        b"Connections to the service: busy, with a value under way; kept, for another one.",
    )?;
    put_service_rows(
        page,
        b"peer_front_origin_connections",
        &[
            (b",state=\"busy\"", ServiceNumber::Busy),
            (b",state=\"kept\"", ServiceNumber::Kept),
        ],
        services,
    )?;
    Ok(())
}

// Appends of each service its keys that wait.
fn put_held_keys(page: &mut Vec<u8>, services: &[ServiceCounts<'_>]) -> Result<(), AllocError>
    ensures { OnOk result (page.new.items ≡ page.old.items ++ held_keys_text services.now) }
{
    put_family(
        page,
        b"peer_front_origin_waiting",
        b"gauge",
        b"Keys that wait in fetchers until the service may be asked for them.",
    )?;
    put_each_service(
        page,
        b"peer_front_origin_waiting",
        b"",
        ServiceNumber::Waiting,
        services,
    )?;
    Ok(())
}

// Appends of each service its addresses.
fn put_held_addresses(page: &mut Vec<u8>, services: &[ServiceCounts<'_>]) -> Result<(), AllocError>
    ensures { OnOk result (page.new.items ≡ page.old.items ++ held_addresses_text services.now) }
{
    put_family(
        page,
        b"peer_front_origin_addresses",
        b"gauge",
        b"Addresses of the service, as each fetcher that has asked it knows them: used, or resting since values or connections failed.",
    )?;
    put_service_rows(
        page,
        b"peer_front_origin_addresses",
        &[
            (b",state=\"used\"", ServiceNumber::Used),
            (b",state=\"resting\"", ServiceNumber::Resting),
        ],
        services,
    )?;
    Ok(())
}

// Appends of each service its attempts to connect, by how they ended.
fn put_connects(page: &mut Vec<u8>, services: &[ServiceCounts<'_>]) -> Result<(), AllocError>
    ensures { OnOk result (page.new.items ≡ page.old.items ++ connects_text services.now) }
{
    put_family(
        page,
        b"peer_front_origin_connects_total",
        b"counter",
        b"Connections to the service that were begun, by how that ended: ok, refused, timeout, other.",
    )?;
    put_service_rows(
        page,
        b"peer_front_origin_connects_total",
        &[
            (b",result=\"ok\"", ServiceNumber::Made),
            (b",result=\"refused\"", ServiceNumber::Refused),
            (b",result=\"timeout\"", ServiceNumber::Late),
            (b",result=\"other\"", ServiceNumber::Failed),
        ],
        services,
    )?;
    Ok(())
}

// Appends of each service its replies, by their statuses.
fn put_statuses(page: &mut Vec<u8>, services: &[ServiceCounts<'_>]) -> Result<(), AllocError>
    ensures { OnOk result (page.new.items ≡ page.old.items ++ statuses_text services.now) }
{
    put_family(
        page,
        b"peer_front_origin_replies_total",
        b"counter",
        b"Replies of the service by their status: 200, 404, and the others by classes.",
    )?;
    put_service_rows(
        page,
        b"peer_front_origin_replies_total",
        &[
            (b",code=\"200\"", ServiceNumber::Ok),
            (b",code=\"404\"", ServiceNumber::NoSuchKey),
            (b",code=\"1xx\"", ServiceNumber::Informational),
            (b",code=\"2xx\"", ServiceNumber::Successful),
            (b",code=\"3xx\"", ServiceNumber::Redirection),
            (b",code=\"4xx\"", ServiceNumber::ClientError),
            (b",code=\"5xx\"", ServiceNumber::ServerError),
        ],
        services,
    )?;
    Ok(())
}

// Appends of each service its requests that were made once more.
fn put_second_requests(page: &mut Vec<u8>, services: &[ServiceCounts<'_>]) -> Result<(), AllocError>
    ensures { OnOk result (page.new.items ≡ page.old.items ++ second_requests_text services.now) }
{
    put_family(
        page,
        b"peer_front_origin_second_requests_total",
        b"counter",
        b"Requests that were made once more, since a kept connection had ended.",
    )?;
    put_each_service(
        page,
        b"peer_front_origin_second_requests_total",
        b"",
        ServiceNumber::SecondRequests,
        services,
    )?;
    Ok(())
}

// Appends of each service its look-ups of its name.
fn put_lookups(page: &mut Vec<u8>, services: &[ServiceCounts<'_>]) -> Result<(), AllocError>
    ensures { OnOk result (page.new.items ≡ page.old.items ++ lookups_text services.now) }
{
    put_family(
        page,
        b"peer_front_lookups_total",
        b"counter",
        b"Look-ups of the name of the service while it serves, by how they ended: ok, failed.",
    )?;
    put_service_rows(
        page,
        b"peer_front_lookups_total",
        &[
            (b",result=\"ok\"", ServiceNumber::LookupsOk),
            (b",result=\"failed\"", ServiceNumber::LookupsFailed),
        ],
        services,
    )?;
    Ok(())
}

/// Appends what was counted of each service, in the order of the services.
pub(crate) fn put_services(
    page: &mut Vec<u8>,
    services: &[ServiceCounts<'_>],
) -> Result<(), AllocError>
    ensures { OnOk result (page.new.items ≡ page.old.items ++ services_text services.now) }
{
    put_held_connections(page, services)?;
    put_held_keys(page, services)?;
    put_held_addresses(page, services)?;
    put_connects(page, services)?;
    put_statuses(page, services)?;
    put_second_requests(page, services)?;
    put_lookups(page, services)?;
    Ok(())
}

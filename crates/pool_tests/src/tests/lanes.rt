//! Lanes: that calls succeed, that a lane has room for 64, and that threads wake one another.

mod flags;
mod full;
mod threads;

use peer_reply::Fault;
use peer_source::DemoSource;
use peer_view::ByteView;
use peer_wish::{Body, Ticket};
use std::alloc::{AllocError, Global};

// A ticket that bears this number as the name of a group.
fn ticket_with(alloc: Global, number: u8) -> Result<Ticket<DemoSource>, AllocError> {
    let name = ByteView::copy_of(alloc, &[number])?;
    Ok(Ticket {
        closing: false,
        bare: false,
        body: Body::Fault(Fault::NoGroup(name)),
    })
}

// Whether there is a ticket, and it bears this number.
fn has_number(ticket: Option<Ticket<DemoSource>>, number: u8) -> bool {
    let Some(ticket) = ticket else {
        return false;
    };
    match ticket.body {
        Body::Fault(Fault::NoGroup(name)) => name.as_slice() == [number].as_slice(),
        _ => false,
    }
}

//! A value that is fetched from an origin, without input or output: which job it is for, how far its fetch is, and whose turn it
//! is to be under way.
//!
//! It stands on the jobs of `peer_fill`, the requests and replies of `peer_http`, and the origins, rules and texts of
//! `peer_origin`. It promises of each value that, by what its driver says was sent and came, it is the content of a whole
//! reply with status 200 that came on a connection on which the request for this very key was sent whole, that a status which is
//! told is one that came there, and that two requests were sent at most (`Fetching`, `UnderWay`); that a job comes back once at
//! most, with its value or why there is none (`UnderWay`); how many values of a service and of a group may be under way (`Shares`,
//! `GroupShares`); and that those which wait for one group come out in the order in which they came in (`Waiting`).
#![tactic(auto)]

mod address_book;
mod done;
mod endpoints;
mod fetching;
mod group_shares;
mod listed;
mod shares;
mod times;
mod under_way;
mod waiting;

pub use address_book::AddressBook;
pub use done::Done;
pub use endpoints::{Endpoints, Numbered};
pub use fetching::{Answer, Fetching};
pub use group_shares::GroupShares;
pub use listed::{Event, Listed};
pub use shares::Shares;
pub use times::{Spans, Times};
pub use under_way::UnderWay;
pub use waiting::Waiting;

//! The groups that `peer_front` serves: those of a table, of services and of the demonstration beside one another, and
//! where threads of their own fetch the values of services.
//!
//! It stands on the sources of `peer_table`, `peer_origin` and `peer_source`, and on the endpoints of `peer_value`. It
//! promises that a group answers as the source that has it, that threads fetch only for groups of services, and that names
//! stand in the order of the numbers of their groups.
#![tactic(auto)]

mod beside;
mod fetched;
mod groups;
mod maybe;
mod names;

pub use beside::Beside;
pub use fetched::{Fetched, fetched_of};
pub use groups::{BadGroup, FrontSource, GroupFault, first_in, origins_of};
pub use maybe::Maybe;
pub use names::{DEMO_NAMES, names_of};

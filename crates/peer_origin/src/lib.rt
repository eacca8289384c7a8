//! HTTP origins: where each is, the request for a key, what its answers may be, and a source that names them. The value of a key
//! is the body of `GET prefix key`, by the prefix of its group. A network says what its connections carried (`Wires`).
//!
//! It stands on the sources of `peer_source` and on the requests of `peer_http`. It promises the request for a key, the number of
//! each group and its endpoint, and that an answer is a value within the limit or one of the texts of `FetchFault`. What a fetch is
//! its specs say (`Fetches`); `peer_value` promises it of a fetch as a state.
#![tactic(auto)]

mod addresses;
mod endpoint;
mod failure;
mod fault;
mod group_settings;
mod look_up;
mod origin;
mod requests;
mod settings;
mod source;
mod target;
mod wires;

pub use addresses::{Addresses, is_to_itself};
pub use endpoint::{Endpoint, EndpointFault};
pub use failure::{Failure, failure_of};
pub use fault::{FetchFault, get_fault};
pub use group_settings::GroupSettings;
pub use look_up::LookUp;
pub use origin::Origin;
pub use requests::request;
pub use settings::FetchSettings;
pub use source::{OriginSource, set_group};
pub use wires::Wires;

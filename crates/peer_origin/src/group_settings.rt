//! What can be set of one group whose values a service has.
ghost use Rattle.std.specs.Prelude.{◌≡◌, ◌^◌, ◌-◌, unwrap_or};

use peer_http::Field;
use std::alloc::Global;
use std::time::Duration;

/// What is set of one group.
#[derive(Drop)]
pub struct GroupSettings {
    /// The fields that its requests have besides the usual ones, in order.
    pub fields: Vec<Field>,
    /// How long a connection to one address of its service may take, if that is not as for others.
    pub connect: Option<Duration>,
    /// How long a value of it may take, if that is not as for others.
    pub value: Option<Duration>,
    /// How many of its values each thread may have under way, if that is not as many as there is room for.
    pub under_way: Option<usize>,
}

impl GroupSettings {
    /// Nothing is set.
    pub fn none(alloc: Global) -> GroupSettings {
        GroupSettings {
            fields: Vec::new(alloc),
            connect: None,
            value: None,
            under_way: None,
        }
    }

    /// How long a connection to one address of its service may take, if it is so long for others.
    pub fn connect_or(&self, usual: Duration) -> Duration
        ensures { result ≡ unwrap_or self.now.connect usual }
    {
        self.connect.unwrap_or(usual)
    }

    /// How many of its values each thread may have under way, if there is room.
    pub fn most(&self) -> usize
        ensures { result ≡ unwrap_or self.now.under_way (2 ^ 64 - 1) }
    {
        self.under_way.unwrap_or(usize::MAX)
    }

    /// How long a value of it may take, if it is so long for others.
    pub fn value_or(&self, usual: Duration) -> Duration
        ensures { result ≡ unwrap_or self.now.value usual }
    {
        self.value.unwrap_or(usual)
    }
}

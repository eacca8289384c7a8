//! The origin of one group.
ghost use Rattle.std.specs.Prelude.{◌≡◌, OnOk, bytes_eq};
ghost use Rattle.std.specs.Bool.{OnFalse, OnTrue};
ghost use Rattle.peer_origin.specs.Endpoints.{addresses_of, asked_at, own_of};

use crate::endpoint::Endpoint;
use crate::group_settings::GroupSettings;
use std::alloc::{AllocError, Global};
use std::sync::Arc;

/// The origin of one group.
#[derive(Drop)]
pub struct Origin {
    pub(crate) name: Vec<u8>,
    pub(crate) endpoint: Endpoint,
}

impl Origin {
    ghost use Rattle.std.specs.Arc.{arc_value};
    ghost use Rattle.peer_origin.specs.Settings.{IsSetTo};

    /// The origin of a group of this name.
    pub fn new(name: Vec<u8>, endpoint: Endpoint) -> Origin
        ensures name { result.name ≡ name }
        ensures endpoint { result.endpoint ≡ endpoint }
    {
        Origin { name, endpoint }
    }

    /// Whether both are origins of groups of one name.
    pub fn has_name_of(&self, other: &Origin) -> bool
        ensures { result ≡ bytes_eq self.now.name.items other.now.name.items }
    {
        self.name == other.name
    }

    /// Has these settings be those of its group.
    pub fn set(&mut self, own: Arc<GroupSettings, Global>)
        ensures { IsSetTo (arc_value own) self.old self.new }
    {
        self.endpoint.own = own;
    }

    /// Where both are at one host, it has the addresses of the other one, whose name is then looked up for both at once.
    pub fn share_addresses(&mut self, other: &Origin) -> Result<(), AllocError>
        ensures name { self.new.name ≡ self.old.name }
        ensures asked { asked_at self.new.endpoint ≡ asked_at self.old.endpoint }
        ensures settings { own_of self.new.endpoint ≡ own_of self.old.endpoint }
        ensures shared { OnOk result (OnTrue (bytes_eq self.old.endpoint.host.items other.now.endpoint.host.items)
            (addresses_of self.new.endpoint ≡ addresses_of other.now.endpoint)) }
        ensures own { OnFalse (bytes_eq self.old.endpoint.host.items other.now.endpoint.host.items)
            (addresses_of self.new.endpoint ≡ addresses_of self.old.endpoint) }
    {
        if self.endpoint.host == other.endpoint.host {
            self.endpoint.addresses = Arc::try_clone(&other.endpoint.addresses)?;
        }
        Ok(())
    }
}

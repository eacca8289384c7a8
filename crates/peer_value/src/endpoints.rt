//! Which groups are fetched for, and where.
ghost use Rattle.std.specs.Prelude.{◌≡◌, ◌↔◌, ◌+◌, ◌≤◌, IfNone, IfSome, IsTrue, Some, length, slice_get};
ghost use Rattle.peer_origin.specs.Endpoints.{asked_at};
ghost use Rattle.peer_value.specs.Endpoints.{HasEndpoint, IsOfGroup};

use peer_http::are_same;
use peer_origin::Endpoint;
use peer_source::GroupId;

/// The endpoints of groups whose numbers follow one another.
#[derive(Clone, Copy)]
pub struct Endpoints<'a> {
    /// The number of the first group.
    pub first: usize,
    /// The endpoint of each group, from the first on.
    pub each: &'a [Endpoint],
    /// How many groups the source has, those without an endpoint too.
    pub groups: usize,
}

/// The endpoint of a group, and its number among the endpoints: what `Endpoints::of` finds.
#[derive(Clone, Copy)]
pub struct Numbered<'a> {
    pub(crate) number: usize,
    pub(crate) endpoint: &'a Endpoint,
    pub(crate) group: GroupId,
}

impl<'a> Numbered<'a> {
    /// The endpoint's number.
    pub fn number(&self) -> usize
        ensures { result ≡ self.now.number }
    {
        self.number
    }

    /// The endpoint.
    pub fn endpoint(&self) -> &'a Endpoint
        ensures { result ≡ self.now.endpoint }
    {
        self.endpoint
    }

    /// Whether the same is asked at this endpoint: of the same host, with the same before a key, and with the same fields.
    pub fn is_at(&self, endpoint: &Endpoint) -> bool
        ensures { IsTrue result → asked_at self.now.endpoint.now ≡ asked_at endpoint.now }
    {
        self.endpoint.host == endpoint.host
            && self.endpoint.prefix == endpoint.prefix
            && are_same(&self.endpoint.own.fields, &endpoint.own.fields)
    }
}

impl<'a> Endpoints<'a> {
    /// Whether there is one for each group of the source.
    pub fn cover_all(&self) -> bool
        ensures { IsTrue result ↔ (self.now.groups ≤ length self.now.each.now) }
    {
        self.each.len() >= self.groups
    }

    /// The endpoint of a group, where it has one.
    pub fn of(&self, group: GroupId) -> Option<Numbered<'a>>
        ensures number { IfSome result (λ numbered. self.now.first + numbered.number ≡ group.number) }
        ensures endpoint { IfSome result (λ numbered. slice_get self.now.each.now numbered.number ≡ Some numbered.endpoint.now) }
        ensures own { IfSome result (λ numbered. IsOfGroup numbered group.number) }
        ensures none { IfNone result (¬ (HasEndpoint self.now.first self.now.each.now group.number)) }
        ensures has { IfSome result (λ numbered. HasEndpoint self.now.first self.now.each.now group.number) }
    {
        let number = group.number.checked_sub(self.first)?;
        let endpoint = self.each.get(number)?;
        Some(Numbered {
            number,
            endpoint,
            group,
        })
    }
}

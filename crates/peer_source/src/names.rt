//! The names of the groups of a source, and nothing else of it.
ghost use Rattle.std.specs.Prelude.{◌≡◌, ℕ, ◌<◌, IfSome, option_map};

use crate::group::GroupId;
use crate::source::Source;
use std::marker::Model;

/// Tells the groups of a source. Contracts see the source.
#[derive(Drop)]
pub struct Names<'a, S: Source> {
    source: &'a S,
}

impl<'a, S: Source> Model for Names<'a, S> {
    ghost Value = { S };

    ghost view = { λ n. n.source.now };
}

impl<'a, S: Source> Names<'a, S> {
    /// The names of a source's groups.
    pub fn of(source: &'a S) -> Names<'a, S>
        ensures { result ≡ source.now }
    {
        Names { source }
    }

    /// The group of a name, as the source tells it.
    pub fn group(&self, name: &[u8]) -> Option<GroupId>
        ensures number { option_map (λ g. g.number) result ≡ S.number_of self.now name.now }
        ensures within { IfSome result (λ g. g.number < S.count self.now) }
    {
        self.source.group(name)
    }
}

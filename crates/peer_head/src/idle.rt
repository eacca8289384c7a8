//! Whether a buffer waits between two heads.
ghost use Rattle.std.specs.Prelude.{◌↔◌, IsTrue};
ghost use Rattle.peer_head.specs.Pairs.{ArePairs};

use crate::block::skip_pairs;
use crate::buffer::HeadBuf;

impl HeadBuf {
    /// Whether the bytes held are pairs CR LF alone, which may stand before a head (RFC 9112, section 2.2).
    pub fn holds_only_pairs(&self) -> bool
        ensures { IsTrue result ↔ ArePairs self.now.held }
    {
        are_pairs(self.rest())
    }
}

/// Whether a text is pairs CR LF alone.
pub fn are_pairs(text: &[u8]) -> bool
    ensures { IsTrue result ↔ ArePairs text.now }
{
    skip_pairs(text) == text.len()
}

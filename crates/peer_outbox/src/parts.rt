//! The parts of a reply, one at a time.
ghost use Rattle.std.specs.Prelude.{◌≡◌, ◌<◌, ◌+◌, ◌++◌, length, take, drop};
ghost use Rattle.peer_reply.specs.Texts.{joined};

/// The part at a place.
pub fn part_at<'p>(parts: &[&'p [u8]], i: usize) -> &'p [u8]
    requires { i < length parts.now }
    ensures behind { joined (take i parts.now) ++ result.now ≡ joined (take (i + 1) parts.now) }
    ensures all { joined (take i parts.now) ++ (result.now ++ joined (drop (i + 1) parts.now)) ≡ joined parts.now }
{
    parts[i]
}

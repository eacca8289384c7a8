//! What tests of several modules begin with: views of given bytes, and numbers by chance.
ghost use Rattle.std.specs.Prelude.{◌≡◌};

use bytes::Bytes;
use peer_view::ByteView;

/// A view of these bytes, for which no memory can be refused.
pub fn view_of(bytes: &'static [u8]) -> ByteView
    ensures { result ≡ bytes.now }
{
    ByteView::from_shared(Bytes::from_static(bytes))
}

/// The next number of a generator.
pub fn next(state: &mut u64) -> usize {
    *state = state
        .wrapping_mul(6_364_136_223_846_793_005)
        .wrapping_add(1_442_695_040_888_963_407);
    (*state >> 33) as usize
}

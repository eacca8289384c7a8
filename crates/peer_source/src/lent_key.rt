//! Keys that are lent: a map of views finds by one the view of the same bytes, and no view is made for the search.
ghost use Rattle.std.specs.Prelude.{◌≡◌};

use peer_view::ByteView;
use std::collections::hash_map::Equivalent;
use std::hash::{Hash, Hasher};

/// The bytes of a key.
#[derive(Clone, Copy, PartialEq, Eq)]
pub(crate) struct LentKey<'k> {
    bytes: &'k [u8],
}

impl<'k> LentKey<'k> {
    pub(crate) fn of(bytes: &'k [u8]) -> LentKey<'k>
        ensures { result.bytes.now ≡ bytes.now }
    {
        LentKey { bytes }
    }
}

impl<'k> Hash for LentKey<'k> {
    ghost use Rattle.std.specs.Prelude.{[], ◌∷◌};
    ghost use Rattle.std.specs.Cmp.Rules.{hashing};
    ghost use Rattle.std.proofs.Common.{rules};

    ghost hash_input = { λ k. k.bytes.now ∷ [] };

    ghost respects_eq = { Prim.search (hashing, rules) };

    fn hash<H: Hasher>(&self, state: &mut H) {
        state.write(self.bytes);
    }
}

impl<'k> Equivalent<ByteView> for LentKey<'k> {
    ghost use Rattle.std.specs.Prelude.{bytes_eq};
    ghost use Rattle.std.specs.Cmp.Rules.{hashing};
    ghost use Rattle.std.proofs.Common.{rules};

    ghost equivalent = { λ q k. bytes_eq q.bytes.now k };

    ghost respects_hash = { Prim.search (hashing, rules) };

    ghost respects_eq = { Prim.search (hashing, rules) };

    fn equivalent(&self, key: &ByteView) -> bool {
        self.bytes == key.as_slice()
    }
}

//! Views: immutable lists of bytes whose buffer is shared and never copied (`byteview.go`).
ghost use Rattle.std.specs.Prelude.{◌≡◌, ◌==◌, length, IfOk};

use bytes::Bytes;
use std::alloc::{AllocError, Global};
use std::hash::{Hash, Hasher};
use std::marker::Model;

mod copies;
mod held;
mod parts;
mod short;

pub use copies::TextFault;
use held::Held;
pub use short::SHORT;

/// An immutable list of bytes, which lends its parts. A few bytes stand in the view itself.
#[derive(Drop)]
pub struct ByteView {
    held: Held,
}

impl Model for ByteView {
    ghost use Rattle.std.specs.Prelude.{List, ℕ};
    ghost use Rattle.peer_view.specs.Views.{held_bytes};

    ghost Value = { List ℕ };

    ghost view = { λ v. held_bytes v.held };
}

impl PartialEq for ByteView {
    ghost use Rattle.std.specs.Prelude.{nat_eq};
    ghost use Rattle.std.specs.Cmp.{partial_equiv_from_equiv};
    ghost use Rattle.std.specs.Cmp.Lexicographic.{pointwise, nat_list_eq_equiv};

    ghost eq = { pointwise nat_eq };

    ghost laws = { partial_equiv_from_equiv nat_list_eq_equiv };

    fn eq(&self, other: &ByteView) -> bool {
        self.as_slice() == other.as_slice()
    }
}

impl Eq for ByteView {
    ghost use Rattle.std.specs.Cmp.Lexicographic.{nat_list_eq_equiv};

    ghost laws = { nat_list_eq_equiv };
}

impl Hash for ByteView {
    ghost use Rattle.std.specs.Prelude.{[], ◌∷◌};
    ghost use Rattle.std.specs.Cmp.Rules.{hashing};
    ghost use Rattle.std.proofs.Common.{rules};

    ghost hash_input = { λ v. v ∷ [] };

    ghost respects_eq = { Prim.search (hashing, rules) };

    /// One write of all bytes, which costs a hasher far less than a write for each.
    fn hash<H: Hasher>(&self, state: &mut H) {
        state.write(self.as_slice());
    }
}

impl ByteView {
    /// A view of the same bytes, in a buffer of its own.
    pub fn copy_of(alloc: Global, bytes: &[u8]) -> Result<ByteView, AllocError>
        ensures { IfOk result (λ v. v ≡ bytes.now) }
    {
        let held = Held::copy_of(alloc, bytes)?;
        Ok(ByteView { held })
    }

    /// A view of a buffer that is shared already.
    pub fn from_shared(bytes: Bytes<Global>) -> ByteView
        ensures { result ≡ bytes }
    {
        ByteView {
            held: Held::Shared(bytes),
        }
    }

    /// A view of these bytes, which it takes over.
    pub fn from_vec(bytes: Vec<u8>) -> Result<ByteView, AllocError>
        ensures { IfOk result (λ v. v ≡ bytes.items) }
    {
        let held = Held::from_vec(bytes)?;
        Ok(ByteView { held })
    }

    /// A second view of the same bytes.
    pub fn share(&self) -> Result<ByteView, AllocError>
        ensures { IfOk result (λ v. v ≡ self.now) }
    {
        let held = self.held.share()?;
        Ok(ByteView { held })
    }

    /// The length in bytes.
    pub fn len(&self) -> usize
        ensures { result ≡ length self.now }
    {
        self.held.len()
    }

    /// Whether there is no byte.
    pub fn is_empty(&self) -> bool
        ensures { result ≡ (length self.now == 0) }
    {
        self.held.len() == 0
    }

    /// All the bytes.
    pub fn as_slice(&self) -> &[u8]
        ensures { result.now ≡ self.now }
    {
        self.held.as_slice()
    }
}

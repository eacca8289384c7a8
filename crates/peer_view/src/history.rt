//! Bytes that only contracts see.
//!
//! It stands on nothing. It promises what its calls say of the bytes; no code can read them, and no memory holds them.
ghost use Rattle.std.specs.Prelude.{◌≡◌, ℕ, List, [], ◌++◌};
ghost use base.Fml.{ftrue};

use std::marker::{Model, PhantomData};

/// A list of bytes.
#[derive(Drop)]
pub struct History {
    marker: PhantomData<u8>,
    ghost bytes: { List ℕ },
}

impl Model for History {
    ghost also_owns = { λ _. ftrue };
}

// It owns nothing, so that what has one goes to another thread where its other fields do.
unsafe impl Send for History {}

impl History {
    /// No bytes.
    pub fn none() -> History
        ensures { result.bytes ≡ [] }
    {
        History {
            marker: PhantomData,
        }
    }

    /// These bytes, and more behind them.
    pub fn and(&self, more: &[u8]) -> History
        ensures { result.bytes ≡ self.now.bytes ++ more.now }
    {
        let _ = self;
        let _ = more;
        History {
            marker: PhantomData,
        }
    }
}

//! What the contracts of one loop know of what it serves: no code reads it, and no memory holds it.

use std::marker::Brand;

/// The source of the pool that a loop asks. A call at `Brand` picks it.
pub trait Facts<S> {
    ghost use Rattle.std.specs.Prelude.{Option};

    ghost source: { Option S };
}

impl<S> Facts<S> for Brand {
    ghost use Rattle.std.specs.Prelude.{None};

    ghost source = { None };
}

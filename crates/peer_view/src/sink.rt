//! Where a source puts a value (`sinks.go`).
ghost use Rattle.std.specs.Prelude.{◌≡◌, ◌↔◌, ◌<◌, ◌≤◌, ℕ, List, length, Option, Err, IsSome, IsOk, IfOk, OnOk, OnErr};
ghost use Rattle.std.specs.Borrow.{GName};
ghost use Rattle.peer_view.specs.Sinks.{kept, placed, IsTooLong, MAX_VALUE};

use crate::view::ByteView;
use std::alloc::{AllocError, Global};

/// The longest value, in bytes.
pub const MAX_VALUE: usize = 1_048_576;

/// Why a sink refused a value.
#[derive(Clone, Copy, Debug, PartialEq, Eq)]
pub enum SinkFault {
    /// The value is longer than `MAX_VALUE`.
    TooLong,
    /// Memory for the value was refused.
    Memory,
}

/// Takes a value, which replaces the one before. A sink that refuses a value is unchanged.
pub trait Sink {
    // The value held.
    ghost value: { Self → List ℕ };
    // What stands where the sink puts its values.
    ghost place: { Self → List ℕ };
    // Room for how many bytes, where the sink keeps the first bytes of a value that fit.
    ghost room: { Self → Option ℕ };
    // The loan that the sink writes to, if it has one.
    ghost loan: { Self → Option GName };

    /// Copies the bytes.
    fn set_bytes(&mut self, alloc: Global, bytes: &[u8]) -> Result<(), SinkFault>
        ensures ok { OnOk result (value self.new ≡ kept (room self.old) bytes.now) }
        ensures place { OnOk result (place self.new ≡ placed (room self.old) bytes.now (place self.old)) }
        ensures err { OnErr result ((value self.new ≡ value self.old) × (place self.new ≡ place self.old)) }
        ensures too_long { (result ≡ Err SinkFault.TooLong) ↔ IsTooLong (room self.old) bytes.now }
        ensures fits { IsSome (room self.old) → IsOk result }
        ensures same { (room self.new ≡ room self.old) × (loan self.new ≡ loan self.old) };

    /// Copies the bytes of the text.
    fn set_str(&mut self, alloc: Global, text: &str) -> Result<(), SinkFault>
        ensures ok { OnOk result (value self.new ≡ kept (room self.old) text.now) }
        ensures place { OnOk result (place self.new ≡ placed (room self.old) text.now (place self.old)) }
        ensures err { OnErr result ((value self.new ≡ value self.old) × (place self.new ≡ place self.old)) }
        ensures too_long { (result ≡ Err SinkFault.TooLong) ↔ IsTooLong (room self.old) text.now }
        ensures fits { IsSome (room self.old) → IsOk result }
        ensures same { (room self.new ≡ room self.old) × (loan self.new ≡ loan self.old) };

    /// Takes the bytes of the view, which it may share.
    fn set_view(&mut self, view: &ByteView) -> Result<(), SinkFault>
        ensures ok { OnOk result (value self.new ≡ kept (room self.old) view.now) }
        ensures place { OnOk result (place self.new ≡ placed (room self.old) view.now (place self.old)) }
        ensures err { OnErr result ((value self.new ≡ value self.old) × (place self.new ≡ place self.old)) }
        ensures too_long { (result ≡ Err SinkFault.TooLong) ↔ IsTooLong (room self.old) view.now }
        ensures fits { IsSome (room self.old) → IsOk result }
        ensures same { (room self.new ≡ room self.old) × (loan self.new ≡ loan self.old) };
}

/// A view of a copy of the bytes, for a sink to hold.
pub(crate) fn copy_for_sink(alloc: Global, bytes: &[u8]) -> Result<ByteView, SinkFault>
    ensures ok { IfOk result (λ v. v ≡ bytes.now) }
    ensures fits { OnOk result (length bytes.now ≤ MAX_VALUE) }
    ensures too_long { (result ≡ Err SinkFault.TooLong) ↔ (MAX_VALUE < length bytes.now) }
{
    if bytes.len() > MAX_VALUE {
        return Err(SinkFault::TooLong);
    }
    ByteView::copy_of(alloc, bytes).map_err(memory_fault)
}

/// A second view of the bytes, for a sink to hold.
pub(crate) fn share_for_sink(view: &ByteView) -> Result<ByteView, SinkFault>
    ensures ok { IfOk result (λ v. v ≡ view.now) }
    ensures fits { OnOk result (length view.now ≤ MAX_VALUE) }
    ensures too_long { (result ≡ Err SinkFault.TooLong) ↔ (MAX_VALUE < length view.now) }
{
    if view.len() > MAX_VALUE {
        return Err(SinkFault::TooLong);
    }
    view.share().map_err(memory_fault)
}

// What refused memory is for a sink.
fn memory_fault(_: AllocError) -> SinkFault
    ensures { result ≡ SinkFault.Memory }
{
    SinkFault::Memory
}

//! The sink that holds its value (`AllocatingByteSliceSink` of `sinks.go`).
ghost use Rattle.std.specs.Prelude.{◌≡◌, ◌↔◌, ◌<◌, ◌≤◌, [], length, None, OnOk, OnErr, Err};
ghost use Rattle.peer_view.specs.Sinks.{MAX_VALUE};

use crate::sink::{Sink, SinkFault, copy_for_sink, share_for_sink};
use crate::view::ByteView;
use bytes::Bytes;
use std::alloc::Global;
use std::marker::Model;

/// Holds the last value set, or the empty one.
#[derive(Drop)]
pub struct AllocSink {
    value: ByteView,
}

impl Model for AllocSink {
    ghost use Rattle.std.specs.Prelude.{List, ℕ, ◌≤◌, length};
    ghost use Rattle.peer_view.specs.Sinks.{MAX_VALUE};

    ghost Value = { List ℕ };

    ghost view = { λ s. s.value };

    ghost invariant = { λ s. length s.value ≤ MAX_VALUE };
}

impl AllocSink {
    /// A sink that holds no value.
    pub fn new() -> AllocSink
        ensures { result ≡ [] }
    {
        AllocSink {
            value: ByteView::from_shared(Bytes::new()),
        }
    }

    /// Copies the bytes, which replace the value held. A sink that refuses them is unchanged.
    pub fn set_bytes(&mut self, alloc: Global, bytes: &[u8]) -> Result<(), SinkFault>
        ensures ok { OnOk result (self.new ≡ bytes.now) }
        ensures err { OnErr result (self.new ≡ self.old) }
        ensures too_long { (result ≡ Err SinkFault.TooLong) ↔ (MAX_VALUE < length bytes.now) }
    {
        self.value = copy_for_sink(alloc, bytes)?;
        Ok(())
    }

    /// Copies the bytes of the text, which replace the value held. A sink that refuses them is unchanged.
    pub fn set_str(&mut self, alloc: Global, text: &str) -> Result<(), SinkFault>
        ensures ok { OnOk result (self.new ≡ text.now) }
        ensures err { OnErr result (self.new ≡ self.old) }
        ensures too_long { (result ≡ Err SinkFault.TooLong) ↔ (MAX_VALUE < length text.now) }
    {
        self.set_bytes(alloc, text.as_bytes())
    }

    /// Shares the view, which replaces the value held. A sink that refuses it is unchanged.
    pub fn set_view(&mut self, view: &ByteView) -> Result<(), SinkFault>
        ensures ok { OnOk result (self.new ≡ view.now) }
        ensures err { OnErr result (self.new ≡ self.old) }
        ensures too_long { (result ≡ Err SinkFault.TooLong) ↔ (MAX_VALUE < length view.now) }
    {
        self.value = share_for_sink(view)?;
        Ok(())
    }

    /// The last value set, or the empty one.
    pub fn into_view(self) -> ByteView
        ensures value { result ≡ self }
        ensures fits { length result ≤ MAX_VALUE }
    {
        self.value
    }
}

impl Sink for AllocSink {
    ghost value = { λ s. s };

    ghost place = { λ s. s };

    ghost room = { λ s. None };

    ghost loan = { λ s. None };

    fn set_bytes(&mut self, alloc: Global, bytes: &[u8]) -> Result<(), SinkFault> {
        AllocSink::set_bytes(self, alloc, bytes)
    }

    fn set_str(&mut self, alloc: Global, text: &str) -> Result<(), SinkFault> {
        AllocSink::set_str(self, alloc, text)
    }

    fn set_view(&mut self, view: &ByteView) -> Result<(), SinkFault> {
        AllocSink::set_view(self, view)
    }
}

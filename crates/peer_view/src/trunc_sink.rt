//! The sink that keeps what fits into a lent destination (`TruncatingByteSliceSink` of `sinks.go`).
ghost use Rattle.std.specs.Prelude.{◌≡◌, ℕ, ◌≤◌, length, take, min, Some};
ghost use Rattle.peer_view.specs.Sinks.{placed};

use crate::front::copy_front;
use crate::sink::{Sink, SinkFault};
use crate::view::ByteView;
use std::alloc::Global;

/// Copies of each value the first bytes that fit into the front of a lent destination. It refuses none, and its sets
/// take no memory.
#[derive(Drop)]
pub struct TruncSink<'a> {
    destination: &'a mut [u8],
    len: usize,
    ghost fits: { len ≤ length destination.now },
}

impl<'a> TruncSink<'a> {
    ghost use Rattle.peer_view.specs.Loans.{destination_of, kept_len, destination_loan, kept_value};

    /// A sink that keeps nothing yet.
    pub fn new(destination: &'a mut [u8]) -> TruncSink<'a>
        ensures destination { destination_of result ≡ destination.old }
        ensures empty { kept_len result ≡ 0 }
        ensures loan { destination_loan result ≡ destination.entry.ghost_name }
    {
        TruncSink {
            destination,
            len: 0,
        }
    }

    /// How many bytes of the last value fit, 0 before the first one.
    pub fn len(&self) -> usize
        ensures { result ≡ kept_len self.now }
    {
        self.len
    }

    /// Copies the bytes that fit. What is behind them stays.
    pub fn set_bytes(&mut self, bytes: &[u8])
        ensures len { kept_len self.new ≡ min (length (destination_of self.old)) (length bytes.now) }
        ensures value { kept_value self.new ≡ take (length (destination_of self.old)) bytes.now }
        ensures destination { destination_of self.new
            ≡ placed (Some (length (destination_of self.old))) bytes.now (destination_of self.old) }
        ensures room { length (destination_of self.new) ≡ length (destination_of self.old) }
        ensures loan { destination_loan self.new ≡ destination_loan self.old }
    {
        self.len = copy_front(self.destination, bytes);
    }

    /// Copies the bytes of the text that fit. What is behind them stays.
    pub fn set_str(&mut self, text: &str)
        ensures len { kept_len self.new ≡ min (length (destination_of self.old)) (length text.now) }
        ensures value { kept_value self.new ≡ take (length (destination_of self.old)) text.now }
        ensures destination { destination_of self.new
            ≡ placed (Some (length (destination_of self.old))) text.now (destination_of self.old) }
        ensures room { length (destination_of self.new) ≡ length (destination_of self.old) }
        ensures loan { destination_loan self.new ≡ destination_loan self.old }
    {
        self.set_bytes(text.as_bytes());
    }

    /// Copies the bytes of the view that fit. What is behind them stays.
    pub fn set_view(&mut self, view: &ByteView)
        ensures len { kept_len self.new ≡ min (length (destination_of self.old)) (length view.now) }
        ensures value { kept_value self.new ≡ take (length (destination_of self.old)) view.now }
        ensures destination { destination_of self.new
            ≡ placed (Some (length (destination_of self.old))) view.now (destination_of self.old) }
        ensures room { length (destination_of self.new) ≡ length (destination_of self.old) }
        ensures loan { destination_loan self.new ≡ destination_loan self.old }
    {
        self.set_bytes(view.as_slice());
    }

    /// Lends the bytes of the last value that fit.
    pub fn filled(self) -> &'a mut [u8]
        ensures { result.now ≡ kept_value self.entry }
    {
        let TruncSink { destination, len } = self;
        &mut destination[..len]
    }
}

impl Sink for TruncSink<'_> {
    ghost use Rattle.peer_view.specs.Loans.{destination_of, destination_loan, kept_value};

    ghost value = { λ s. kept_value s };

    ghost place = { λ s. destination_of s };

    ghost room = { λ s. Some (length (destination_of s)) };

    ghost loan = { λ s. Some (destination_loan s) };

    fn set_bytes(&mut self, _alloc: Global, bytes: &[u8]) -> Result<(), SinkFault> {
        TruncSink::set_bytes(self, bytes);
        Ok(())
    }

    fn set_str(&mut self, _alloc: Global, text: &str) -> Result<(), SinkFault> {
        TruncSink::set_str(self, text);
        Ok(())
    }

    fn set_view(&mut self, view: &ByteView) -> Result<(), SinkFault> {
        TruncSink::set_view(self, view);
        Ok(())
    }
}

//! Bytes that come, go and are shared: what gives bytes (`PeerRead`), what takes them (`PeerWrite`), views of shared
//! bytes (`ByteView`), the sinks that a source fills (`Sink`), and bytes that only contracts see (`History`).
//!
//! It stands on the shared buffers of `bytes`. It promises which bytes each call gave, took or holds, and counts of
//! calls and failures that move only as the calls say.
#![tactic(auto)]

mod alloc_sink;
mod front;
mod history;
mod mem_reader;
mod mem_writer;
mod read_counts;
mod reader;
mod sink;
mod std_reader;
mod std_writer;
mod trunc_sink;
mod view;
mod view_sink;
mod writer;

pub use alloc_sink::AllocSink;
pub use front::cut_front;
pub use history::History;
pub use mem_reader::MemReader;
pub use mem_writer::MemWriter;
pub use read_counts::ReadCounts;
pub use reader::{PeerRead, ReadFailed};
pub use sink::{MAX_VALUE, Sink, SinkFault};
pub use std_reader::StdReader;
pub use std_writer::StdWriter;
pub use trunc_sink::TruncSink;
pub use view::{ByteView, SHORT, TextFault};
pub use view_sink::ViewSink;
pub use writer::{PeerWrite, WriteFailed, WriteFault, write_all};

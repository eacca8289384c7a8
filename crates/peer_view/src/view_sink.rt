//! The sink that sets a lent view (`ByteViewSink` of `sinks.go`).
ghost use Rattle.std.specs.Prelude.{◌≡◌, None, Some};
ghost use Rattle.peer_view.specs.Loans.{lent_view, view_loan};

use crate::sink::{Sink, SinkFault, copy_for_sink, share_for_sink};
use crate::view::ByteView;
use std::alloc::Global;

/// Sets a lent view to each value. Before the first one the view is as it was.
#[derive(Drop)]
pub struct ViewSink<'a> {
    view: &'a mut ByteView,
}

impl<'a> ViewSink<'a> {
    /// A sink that sets this view.
    pub fn new(view: &'a mut ByteView) -> ViewSink<'a>
        ensures value { lent_view result ≡ view.old }
        ensures loan { view_loan result ≡ view.entry.ghost_name }
    {
        ViewSink { view }
    }
}

impl Sink for ViewSink<'_> {
    ghost value = { λ s. lent_view s };

    ghost place = { λ s. lent_view s };

    ghost room = { λ s. None };

    ghost loan = { λ s. Some (view_loan s) };

    fn set_bytes(&mut self, alloc: Global, bytes: &[u8]) -> Result<(), SinkFault> {
        *self.view = copy_for_sink(alloc, bytes)?;
        Ok(())
    }

    fn set_str(&mut self, alloc: Global, text: &str) -> Result<(), SinkFault> {
        self.set_bytes(alloc, text.as_bytes())
    }

    fn set_view(&mut self, view: &ByteView) -> Result<(), SinkFault> {
        *self.view = share_for_sink(view)?;
        Ok(())
    }
}

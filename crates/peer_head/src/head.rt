//! A request head, lent out of the bytes that hold it.
//!
//! Contracts see its parts: the method, the target, the version and the fields. It copies no byte of
//! the block, and keeps where the parts stand; where its fields stand is lent too.
ghost use Rattle.std.specs.Prelude.{◌≡◌, ◌<◌, ◌≤◌, length, map, slice_get, All, bytes_eq, codes};
ghost use Rattle.httparse.specs.Spans.{IsHeaderWithin, IsRequestWithin};
ghost use Rattle.peer_head.specs.Views.{field_at, parts_at};

use crate::parse::MAX_FIELDS;
use httparse::spans::{HeaderSpan, RequestSpans};
use std::marker::Model;

/// The parts of a request head (RFC 9112, sections 3 and 5).
#[derive(Drop)]
pub struct HeadView<'b> {
    block: &'b [u8],
    spans: RequestSpans,
    fields: &'b [HeaderSpan],
    closing: bool,
}

impl<'b> Model for HeadView<'b> {
    ghost use Rattle.peer_head.specs.Heads.{HeadParts};

    ghost Value = { HeadParts };

    ghost use Rattle.peer_head.specs.Views.{parts_at, IsViewOf};

    ghost view = { λ v. parts_at v.block.now v.fields.now v.spans };

    ghost invariant = { λ v. IsViewOf v.block.now v.fields.now v.spans v.closing };
}

impl<'b> HeadView<'b> {
    ghost use Rattle.peer_head.specs.Faults.{is_closing, is_bare};

    /// The view of a head whose parts were found.
    pub(crate) fn new(
        block: &'b [u8],
        spans: RequestSpans,
        fields: &'b [HeaderSpan],
        closing: bool,
    ) -> HeadView<'b>
        requires within { IsRequestWithin block.now fields.now spans }
        requires few { length fields.now ≡ MAX_FIELDS }
        requires closes { closing ≡ is_closing (parts_at block.now fields.now spans) }
        ensures { result ≡ parts_at block.now fields.now spans }
    {
        HeadView {
            block,
            spans,
            fields,
            closing,
        }
    }

    pub fn method(&self) -> &'b [u8]
        ensures { result.now ≡ self.now.method }
    {
        self.spans.method.of(self.block)
    }

    pub fn target(&self) -> &'b [u8]
        ensures { result.now ≡ self.now.target }
    {
        self.spans.path.of(self.block)
    }

    /// 0 for HTTP/1.0, 1 for HTTP/1.1.
    pub fn version(&self) -> u8
        ensures version { result ≡ self.now.minor }
        ensures within { result ≤ 1 }
    {
        self.spans.version
    }

    pub fn field_count(&self) -> usize
        ensures count { result ≡ length self.now.fields }
        ensures within { result ≤ MAX_FIELDS }
    {
        self.spans.headers
    }

    /// The name and the value of a field, in the order of the head.
    pub fn field(&self, i: usize) -> (&'b [u8], &'b [u8])
        requires { i < length self.now.fields }
        ensures { slice_get self.now.fields i ≡ Some (record { name = result.0.now; value = result.1.now }) }
    {
        field_at(self.block, &self.fields[..self.field_count()], i)
    }

    /// Whether the connection closes after the reply (RFC 9112, section 9.3).
    pub fn is_closing(&self) -> bool
        ensures { result ≡ is_closing self.now }
    {
        self.closing
    }

    /// Whether the reply goes without its content (RFC 9110, section 9.3.2).
    pub fn is_bare(&self) -> bool
        ensures { result ≡ is_bare self.now }
    {
        is_bare(self.method())
    }
}

/// Whether the method is `HEAD`.
pub(crate) fn is_bare(method: &[u8]) -> bool
    ensures { result ≡ bytes_eq method.now (codes "HEAD") }
{
    method == b"HEAD".as_slice()
}

// The name and the value that the spans cover.
fn field_at<'b>(block: &'b [u8], fields: &[HeaderSpan], i: usize) -> (&'b [u8], &'b [u8])
    requires i_in_range { i < length fields.now }
    requires within { All (IsHeaderWithin (length block.now)) fields.now }
    ensures { slice_get (map (field_at block.now) fields.now) i ≡ Some (record { name = result.0.now; value = result.1.now }) }
{
    let field = fields[i];
    (field.name.of(block), field.value.of(block))
}

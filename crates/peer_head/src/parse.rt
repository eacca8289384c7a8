//! Which blocks are request heads, and where their parts stand.
//!
//! `httparse` also takes a line that ends in LF alone and a target past ASCII; the tests here refuse these. Of the empty
//! lines in front that it takes, a block has none.
ghost use Rattle.std.specs.Prelude.{◌≡◌, ◌↔◌, ◌+◌, ◌<◌, length, All, IsTrue, MatchOption};
ghost use Rattle.peer_head.specs.Heads.{IsPaired, NeighboursMatch, IsVisible, HasNoHead};
ghost use Rattle.peer_head.specs.Views.{IsHeadAt};

use httparse::Status;
use httparse::spans::{HeaderSpan, RequestSpans, parse_request};

/// How many fields a head may have.
pub const MAX_FIELDS: usize = 64;

/// Where the parts of the head stand that the block is, if it is one.
pub fn parse_head(block: &[u8], fields: &mut [HeaderSpan]) -> Option<RequestSpans>
    requires { length fields.old ≡ MAX_FIELDS }
    ensures { MatchOption result (HasNoHead block.now) (IsHeadAt block.now fields.new) }
{
    if !is_paired(block) {
        return None;
    }
    match parse_request(block, fields) {
        Ok(Status::Complete(spans)) => {
            if spans.len == block.len() && is_visible(spans.path.of(block)) {
                Some(spans)
            } else {
                None
            }
        }
        Ok(Status::Partial) => None,
        Err(_) => None,
    }
}

// How many bytes are compared with the next at once.
const STEP: usize = 32;

// Whether each CR and each LF stands in a pair CR LF.
//
// The last bytes are compared once more, so that a compiler has none left to compare alone.
fn is_paired(bytes: &[u8]) -> bool
    ensures { IsTrue result ↔ IsPaired bytes.now }
{
    if bytes.is_empty() {
        return true;
    }
    let last = bytes.len() - 1;
    if bytes[0] == b'\n' {
        return false;
    }
    if bytes[last] == b'\r' {
        return false;
    }
    if last < STEP {
        return is_matching(bytes, 0, last);
    }
    is_matching(bytes, 0, last / STEP * STEP) & is_matching(bytes, last - STEP, STEP)
}

// Whether each of so many bytes from a place on is a CR exactly where the next is an LF.
//
// It has no early way out, so that a compiler may compare many bytes at once.
fn is_matching(bytes: &[u8], from: usize, count: usize) -> bool
    requires { from + count < length bytes.now }
    ensures { IsTrue result ↔ NeighboursMatch bytes.now from (from + count) }
{
    let mut matching = true;
    for i in 0..count {
        matching = matching & ((bytes[from + i] == b'\r') == (bytes[from + i + 1] == b'\n'));
    }
    matching
}

// Whether each byte is visible ASCII, again with no early way out.
fn is_visible(bytes: &[u8]) -> bool
    ensures { IsTrue result ↔ All IsVisible bytes.now }
{
    let mut visible = true;
    for b in bytes {
        visible = visible & b.is_ascii_graphic();
    }
    visible
}

//! The escapes of a path: whether they are good, and what they stand for (RFC 3986, section 2.1).
ghost use Rattle.std.specs.Prelude.{◌≡◌, IfOk, IfErr, IsTrue, Some};
ghost use Rattle.std.specs.Cow.{cow_slice_items};
ghost use Rattle.memchr.specs.Find.{IsFirstByte, is_byte};
ghost use Rattle.percent_encoding.specs.Percent as percent;
ghost use Rattle.peer_path.specs.Places as spec;
ghost use Rattle.peer_path.specs.Faults.{IsDecodeFault};

use crate::fault::PathFault;
use memchr::{memchr, memchr_iter};
use percent_encoding::percent_decode;
use std::alloc::{AllocError, Global};
use std::borrow::CowSlice;

// Whether `%` and two hexadecimal digits stand at this place.
fn is_escape_at(path: &[u8], at: usize) -> bool
    ensures { result ≡ spec.is_escape_at path.now at }
{
    matches!(
        path.get(at..),
        Some([b'%', high, low, ..]) if high.is_ascii_hexdigit() && low.is_ascii_hexdigit()
    )
}

// Whether each `%` begins an escape.
fn has_good_escapes(path: &[u8]) -> bool
    ensures { result ≡ spec.has_good_escapes path.now }
{
    memchr_iter(b'%', path).all(|at| is_escape_at(path, at))
}

/// The path with each escape decoded, which is the path itself where it has none.
pub fn decode_path<'t>(alloc: Global, path: &'t [u8]) -> Result<CowSlice<'t, u8>, PathFault>
    ensures good { IfOk result (λ _. IsTrue (spec.has_good_escapes path.now)) }
    ensures bytes { IfOk result (λ d. cow_slice_items d ≡ percent.percent_decode path.now) }
    ensures fault { IfErr result (IsDecodeFault path.now) }
{
    let Some(first) = memchr(b'%', path) else {
        return Ok(CowSlice::Borrowed(path));
    };
    if !has_good_escapes(path) {
        return Err(PathFault::Escape);
    }
    match decode_from(alloc, path, first) {
        Ok(bytes) => Ok(CowSlice::Owned(bytes)),
        Err(_) => Err(PathFault::Memory),
    }
}

// The decoded bytes of a path whose first `%` stands at this place.
fn decode_from(alloc: Global, path: &[u8], first: usize) -> Result<Vec<u8>, AllocError>
    requires { IsFirstByte (is_byte percent.percent_sign) path.now (Some first) }
    ensures { IfOk result (λ v. v.items ≡ percent.percent_decode path.now) }
{
    let (plain, rest) = path.split_at(first);
    let mut bytes = Vec::with_capacity(alloc, path.len())?;
    bytes.extend_from_slice(plain)?;
    percent_decode(rest).append_to(&mut bytes)?;
    Ok(bytes)
}

//! A group and a key, lent from the path that names them.
ghost use Rattle.std.specs.Prelude.{◌≡◌, IfOk, IfErr, Ok};
ghost use Rattle.std.specs.Cow.{cow_slice_items};

use crate::escape::decode_path;
use crate::fault::PathFault;
use crate::target::{before_query, path_of};
use memchr::{memchr, memchr2};
use std::alloc::Global;
use std::borrow::CowSlice;
use std::marker::Model;

// `defaultBasePath` of groupcache's `http.go`.
const BASE_PATH: &[u8] = b"/_groupcache/";

/// The group and the key that a request target names. Both are bytes, and may be empty.
///
/// Where the target's path has no escape they are borrowed from the target, and otherwise they are parts of one buffer.
#[derive(Debug, Drop)]
pub struct Place<'t> {
    path: CowSlice<'t, u8>,
    // Where the `/` behind the group stands in the path.
    slash: usize,
}

impl<'t> Model for Place<'t> {
    ghost use Rattle.std.specs.Prelude.{ℕ, ◌+◌, ◌-◌, ◌<◌, ◌≤◌, length, take, drop};
    ghost use Rattle.std.specs.Cow.{cow_slice_items};
    ghost use Rattle.peer_path.specs.Places.{PlaceParts, base_path};

    ghost Value = { PlaceParts };

    ghost view = { λ a. record {
      group = take (a.slash - length base_path) (drop (length base_path) (cow_slice_items a.path));
      key = drop (a.slash + 1) (cow_slice_items a.path);
    } };

    ghost invariant = { λ a. (length base_path ≤ a.slash) × (a.slash < length (cow_slice_items a.path)) };
}

impl<'t> Place<'t> {
    ghost use Rattle.std.specs.Prelude.{◌+◌, ◌-◌, ◌<◌, ◌≤◌, length, take, drop};
    ghost use Rattle.peer_path.specs.Places.{base_path, place_below_base};
    ghost use Rattle.peer_path.specs.Faults.{IsPlaceFault};

    // The place that a decoded path names.
    fn of_path(path: CowSlice<'t, u8>) -> Result<Place<'t>, PathFault>
        ensures place { IfOk result (λ p. place_below_base (cow_slice_items path.entry) ≡ Ok p) }
        ensures fault { IfErr result (IsPlaceFault (cow_slice_items path.entry)) }
    {
        let Some(rest) = path.as_slice().strip_prefix(BASE_PATH) else {
            return Err(PathFault::Outside);
        };
        let Some(at) = memchr(b'/', rest) else {
            return Err(PathFault::NoKey);
        };
        let slash = BASE_PATH.len() + at;
        Ok(Place { path, slash })
    }

    /// The place that a target of plain bytes names, by where the `/` behind its group stands.
    pub fn cut_at(target: &'t [u8], slash: usize) -> Place<'t>
        requires behind { length base_path ≤ slash }
        requires within { slash < length target.now }
        ensures { result ≡ record {
          group = take (slash - length base_path) (drop (length base_path) target.now);
          key = drop (slash + 1) target.now;
        } }
    {
        Place {
            path: CowSlice::Borrowed(target),
            slash,
        }
    }

    /// The bytes of the group.
    pub fn group(&self) -> &[u8]
        ensures { result.now ≡ self.now.group }
    {
        &self.path.as_slice()[BASE_PATH.len()..self.slash]
    }

    /// The bytes of the key.
    pub fn key(&self) -> &[u8]
        ensures { result.now ≡ self.now.key }
    {
        &self.path.as_slice()[self.slash + 1..]
    }
}

ghost use Rattle.std.specs.Bool.{OnTrue};
ghost use Rattle.peer_path.specs.Places.{place_of, place_below_base};
ghost use Rattle.peer_path.specs.Faults.{IsFaultOf};

// Whether a target is its own decoded path: an origin form with neither a query nor an escape.
fn is_plain(target: &[u8]) -> bool
    ensures { OnTrue result (place_of target.now ≡ place_below_base target.now) }
{
    if target.starts_with(b"/") {
        return memchr2(b'?', b'%', target).is_none();
    }
    false
}

/// The place that a request target names, or the first reason why it names none.
///
/// Memory is taken only where the target's path has an escape, and all its escapes are good: then one buffer, for
/// the decoded path.
pub fn locate<'t>(alloc: Global, target: &'t [u8]) -> Result<Place<'t>, PathFault>
    ensures place { IfOk result (λ p. place_of target.now ≡ Ok p) }
    ensures fault { IfErr result (IsFaultOf target.now) }
{
    if is_plain(target) {
        return Place::of_path(CowSlice::Borrowed(target));
    }
    let Some(path) = path_of(before_query(target)) else {
        return Err(PathFault::Target);
    };
    Place::of_path(decode_path(alloc, path)?)
}

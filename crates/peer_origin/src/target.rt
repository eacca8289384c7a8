//! The target of a key.
ghost use Rattle.std.specs.Prelude.{◌≡◌, IfOk};
ghost use Rattle.peer_origin.specs.Targets.{target_of};

use percent_encoding::{AsciiSet, NON_ALPHANUMERIC, ascii_set, percent_encode};
use std::alloc::{AllocError, Global};

// All bytes but the unreserved ones of RFC 3986, section 2.3.
const ESCAPED: AsciiSet = ascii_set!(
    NON_ALPHANUMERIC
        .remove(b'-')
        .remove(b'.')
        .remove(b'_')
        .remove(b'~')
);

/// The target of a key: the prefix, and the key with an escape for each byte that is not unreserved.
pub fn target(alloc: Global, prefix: &[u8], key: &[u8]) -> Result<Vec<u8>, AllocError>
    ensures { IfOk result (λ t. t.items ≡ target_of prefix.now key.now) }
{
    let mut escaped = String::new(alloc);
    percent_encode(key, ESCAPED).append_to(&mut escaped)?;
    let mut target = prefix.to_vec(alloc)?;
    target.extend_from_slice(escaped.as_bytes())?;
    Ok(target)
}

//! The path of a request target, which is borrowed from it.
ghost use Rattle.std.specs.Prelude.{◌≡◌};
ghost use Rattle.std.specs.Option.{option_copied};
ghost use Rattle.peer_path.specs.Places as spec;

use memchr::memchr;

// The beginning of an absolute form of `http`, in any case.
const HTTP: &[u8] = b"http://";

/// The target up to its query (RFC 9112, section 3.2.1).
pub fn before_query(target: &[u8]) -> &[u8]
    ensures { result.now ≡ spec.before_query target.now }
{
    match memchr(b'?', target) {
        Some(at) => &target[..at],
        None => target,
    }
}

/// The path of a target without a query (RFC 9112, sections 3.2.1 and 3.2.2).
pub fn path_of(target: &[u8]) -> Option<&[u8]>
    ensures { option_copied result ≡ spec.path_of target.now }
{
    if target.starts_with(b"/") {
        return Some(target);
    }
    let (scheme, rest) = target.split_at_checked(HTTP.len())?;
    if !scheme.eq_ignore_ascii_case(HTTP) {
        return None;
    }
    match memchr(b'/', rest) {
        Some(at) => Some(&rest[at..]),
        None => Some(b"/"),
    }
}

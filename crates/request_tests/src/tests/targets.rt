//! Targets and where they lead, by groupcache's `http.go` and the grammar of RFC 9112 and RFC 3986.
use peer_path::{PathFault, locate};
use std::alloc::Global;
use std::process::Abort;
use std::test::Fail;

// Checks that the target names this group and this key.
fn leads_to(
    rt: &impl Abort,
    alloc: Global,
    target: &[u8],
    group: &[u8],
    key: &[u8],
) -> Result<(), PathFault> {
    let place = locate(alloc, target)?;
    assert_eq!(rt; place.group(), group, "at {target:?}");
    assert_eq!(rt; place.key(), key, "at {target:?}");
    Ok(())
}

#[test]
fn names_group_and_key(rt: HostRuntime) -> Result<(), Fail> {
    let rows: [(&[u8], &[u8], &[u8]); 15] = [
        (b"/_groupcache/echo/k", b"echo", b"k"),
        (b"/_groupcache//k", b"", b"k"),
        (b"/_groupcache/echo/", b"echo", b""),
        (b"/_groupcache/echo/a/b", b"echo", b"a/b"),
        (b"/_groupcache/echo/a+b", b"echo", b"a+b"),
        // A slash in what was decoded parts too, and nothing is decoded twice.
        (b"/_groupcache/echo/a%2Fb+c", b"echo", b"a/b+c"),
        (b"/_groupcache/echo/a%2Fb", b"echo", b"a/b"),
        (b"/_groupcache/a%2Fb/c", b"a", b"b/c"),
        (b"/_groupcache/echo/%ff", b"echo", b"\xFF"),
        (b"/_groupcache/echo/%2541", b"echo", b"%41"),
        (b"/%5Fgroupcache/echo%2Fk", b"echo", b"k"),
        // The query is left alone.
        (b"/_groupcache/echo/%3F?x=%G1", b"echo", b"?"),
        (b"/_groupcache/echo/k?a?b/c", b"echo", b"k"),
        // An absolute form leads by its path.
        (b"http://10.0.0.2:8000/_groupcache/echo/k", b"echo", b"k"),
        (b"hTTp://h/_groupcache/echo/%6b", b"echo", b"k"),
    ];
    for (target, group, key) in rows {
        leads_to(&rt, rt.alloc(), target, group, key)?;
    }
    Ok(())
}

#[test]
fn refuses_for_the_first_reason(rt: HostRuntime) {
    let refusals: [(&[u8], PathFault); 16] = [
        (b"", PathFault::Target),
        (b"*", PathFault::Target),
        (b"https://h/e", PathFault::Target),
        (b"?/_groupcache/echo/k", PathFault::Target),
        (b"/_groupcache/echo/%G1", PathFault::Escape),
        (b"/_groupcache/%ZZ", PathFault::Escape),
        (b"/_groupcache/echo/k%2", PathFault::Escape),
        (b"/other%2", PathFault::Escape),
        (b"/other", PathFault::Outside),
        (b"/oth%65r", PathFault::Outside),
        (b"/_groupcache", PathFault::Outside),
        (b"HTTP://h", PathFault::Outside),
        (b"http://h?/_groupcache/echo/k", PathFault::Outside),
        (b"/_groupcache/", PathFault::NoKey),
        (b"/_groupcache/echo", PathFault::NoKey),
        (b"/_groupcache/ech%6F", PathFault::NoKey),
    ];
    for (target, fault) in refusals {
        assert_eq!(rt;
            locate(rt.alloc(), target).err(),
            Some(fault),
            "at {target:?}"
        );
    }
}

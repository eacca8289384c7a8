//! The words of a call, and the address among them.

use crate::args::{Mode, ServerWords, read_args};
use crate::bind::bind_at;
use crate::exit::Exit;
use std::alloc::{AllocError, Global};
use std::test::Fail;

// The words of a text.
fn words_of(alloc: Global, text: &str) -> Result<Vec<String>, AllocError> {
    let mut words = Vec::new(alloc);
    for word in text.split(' ') {
        words.push(String::from_str(alloc, word)?)?;
    }
    Ok(words)
}

// A server with these numbers on `127.0.0.1:0`.
fn server(workers: usize, conns: usize, rounds: u64, table: bool) -> Option<Mode<'static>> {
    Some(Mode::Server(ServerWords {
        address: "127.0.0.1:0",
        workers,
        conns,
        rounds,
        table,
    }))
}

#[test]
fn reads_the_words_of_a_server(rt: HostRuntime) -> Result<(), Fail> {
    for (text, mode) in [
        ("127.0.0.1:0 16 1 007", server(16, 1, 7, false)),
        (
            "127.0.0.1:0 1 16 1000000000",
            server(1, 16, 1_000_000_000, false),
        ),
        ("127.0.0.1:0 2 3 4 -", server(2, 3, 4, true)),
        ("127.0.0.1:0 17 1 1", None),
        ("127.0.0.1:0 1 17 1", None),
        ("127.0.0.1:0 0 1 1", None),
        ("127.0.0.1:0 1 1 0", None),
        ("127.0.0.1:0 1 1 1000000001", None),
        ("127.0.0.1:0 1 1 18446744073709551617", None),
        ("127.0.0.1:0 1 1", None),
        ("127.0.0.1:0 +1 1 1", None),
        ("127.0.0.1:0 1 -1 1", None),
        ("127.0.0.1:0 1  1", None),
        ("127.0.0.1:0 1 1x 1", None),
        ("127.0.0.1:0 1 1 1 x", None),
        ("127.0.0.1:0 1 1 1 --", None),
        ("127.0.0.1:0 1 1 1 - -", None),
        ("-", None),
    ] {
        let words = words_of(rt.alloc(), text)?;
        assert_eq!(rt; read_args(&words), mode, "at {text}");
    }
    Ok(())
}

#[test]
fn reads_no_words(rt: HostRuntime) {
    let words = Vec::new(rt.alloc());
    assert_eq!(rt; read_args(&words), Some(Mode::Pipe));
}

#[test]
fn binds_addresses_alone(rt: HostRuntime) {
    assert!(rt; bind_at(&rt, "127.0.0.1:0").is_ok());
    let refused = Exit {
        status: 2,
        line: Some("peer_serve: cannot bind"),
    };
    assert_eq!(rt; bind_at(&rt, "x").err(), Some(refused));
}

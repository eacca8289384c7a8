//! The words that the program is called with.

mod config;

use clap::ArgMatches;
use peer_flags::{ListenAddress, Options, Room, command, time_of};
use peer_log::LogForm;
use std::alloc::Global;
use std::test::Fail;
use std::time::Duration;

// What these words are read as.
fn matches_of<'w>(alloc: Global, words: &'w [&'w str]) -> Result<ArgMatches<'w>, Fail> {
    Ok(command(alloc)?.try_get_matches_from(words)?)
}

// What the options of these words print where one cannot be used, or nothing.
fn told(alloc: Global, words: &[&str]) -> Result<String, Fail> {
    let matches = matches_of(alloc, words)?;
    let said = match Options::of(&matches) {
        Ok(_) => Ok(String::new(alloc)),
        Err(bad) => format!(in alloc; "{bad}"),
    };
    drop(matches);
    Ok(said?)
}

// Whether a flag with this value prints this.
fn tells(alloc: Global, flag: &str, value: &str, text: &str) -> Result<bool, Fail> {
    let words = ["peer_front", "--listen", "127.0.0.1:1", flag, value];
    Ok(told(alloc, &words)?.as_str() == text)
}

// Whether a flag takes this value, or prints the bounds that its numbers have.
fn is_bounded(alloc: Global, flag: &str, value: &str, bounds: Option<&str>) -> Result<bool, Fail> {
    match bounds {
        None => tells(alloc, flag, value, ""),
        Some(bounds) => {
            let text = format!(in alloc; "{flag} {value}: a number from {bounds} is needed")?;
            tells(alloc, flag, value, text.as_str())
        }
    }
}

#[test]
fn each_flag_has_its_default(rt: HostRuntime) -> Result<(), Fail> {
    let words = ["peer_front", "--listen", "127.0.0.1:1"];
    let matches = matches_of(rt.alloc(), &words)?;
    let usual = Options {
        listen: ListenAddress::At("127.0.0.1:1"),
        check: false,
        demo: false,
        table: None,
        fetchers: 1,
        under_way: 1_024,
        workers: 0,
        loops: 2,
        connections: 10_000,
        cache_bytes: 67_108_864,
        cache_keys: None,
        memory: 268_435_456,
        timeout: Duration::from_secs(10),
        connect_timeout: Duration::from_secs(2),
        wait: Duration::from_secs(10),
        rest_after: 3,
        rest: Duration::from_secs(10),
        connection_for_each: false,
        slow: None,
        stats: None,
        log: LogForm::Text,
        access_log: None,
        until_eof: false,
        for_services: None,
    };
    let is_usual = Options::of(&matches) == Ok(usual);
    drop(matches);
    assert!(rt; is_usual);
    Ok(())
}

#[test]
fn numbers_are_within_their_bounds(rt: HostRuntime) -> Result<(), Fail> {
    let mut right = true;
    for (flag, value, bounds) in [
        ("--workers", "16", None),
        ("--workers", "0", None),
        ("--workers", "17", Some("0 to 16")),
        ("--rest-after", "1000", None),
        ("--rest-after", "0", Some("1 to 1000")),
        ("--fetchers", "4", None),
        ("--fetchers", "0", Some("1 to 4")),
        ("--fetchers", "5", Some("1 to 4")),
        ("--under-way", "1024", None),
        ("--under-way", "1025", Some("1 to 1024")),
        ("--loops", "+1", Some("1 to 16")),
        ("--loops", "x", Some("1 to 16")),
        ("--connections", "65536", None),
        ("--connections", "65537", Some("1 to 65536")),
        ("--cache-keys", "0", Some("1 to 4294967296")),
        ("--cache-keys", "4294967297", Some("1 to 4294967296")),
        ("--cache-keys", "", Some("1 to 4294967296")),
        ("--cache-keys", "1KiB", Some("1 to 4294967296")),
    ] {
        right &= is_bounded(rt.alloc(), flag, value, bounds)?;
    }
    assert!(rt; right);
    Ok(())
}

// The form of lines that these words ask for.
fn form_of(alloc: Global, words: &[&str]) -> Result<Option<LogForm>, Fail> {
    let matches = matches_of(alloc, words)?;
    let form = match Options::of(&matches) {
        Ok(options) => Some(options.log),
        Err(_) => None,
    };
    drop(matches);
    Ok(form)
}

#[test]
fn lines_are_text_or_json(rt: HostRuntime) -> Result<(), Fail> {
    let needed = "--log JSON: text or json is needed";
    let is_told = tells(rt.alloc(), "--log", "JSON", needed)?;
    let words = ["peer_front", "--listen", "127.0.0.1:1", "--log", "json"];
    let json = form_of(rt.alloc(), &words)?;
    let words = ["peer_front", "--listen", "127.0.0.1:1", "--log", "text"];
    let text = form_of(rt.alloc(), &words)?;
    assert!(rt; is_told);
    assert!(rt; json == Some(LogForm::Json));
    assert!(rt; text == Some(LogForm::Text));
    Ok(())
}

#[test]
fn times_are_numbers_with_a_unit(rt: HostRuntime) {
    let mut right = true;
    for (text, millis) in [
        ("500ms", 500),
        ("1.5s", 1_500),
        ("2m", 120_000),
        ("10", 10_000),
        ("0.25", 250),
        ("1.125m", 67_500),
        ("0.001s", 1),
        ("00000001ms", 1),
        ("60m", 3_600_000),
    ] {
        let time = time_of(text, 1_000_000, 3_600_000_000_000);
        right &= time == Some(Duration::from_millis(millis));
    }
    assert!(rt; right);
}

#[test]
fn other_texts_are_no_times(rt: HostRuntime) -> Result<(), Fail> {
    let fault = "a time from 1ms to 60m is needed, such as 500ms, 1.5s or 2m";
    let mut right = true;
    for word in [
        "",
        "s",
        "ms",
        "1.",
        ".5s",
        "1.5.5s",
        "1.1234s",
        "000000001",
        "1 s",
        "1h",
        "1S",
        "+1",
        "1e3",
        "1sm",
        "0",
        "0.5ms",
        "60.001m",
        "3601",
        "99999999",
    ] {
        let text = format!(in rt.alloc(); "--timeout {word}: {fault}")?;
        right &= tells(rt.alloc(), "--timeout", word, text.as_str())?;
    }
    assert!(rt; right);
    Ok(())
}

// How long a key may wait by these words, or none where one cannot be used.
fn wait_of(alloc: Global, words: &[&str]) -> Result<Option<Duration>, Fail> {
    let matches = matches_of(alloc, words)?;
    let wait = match Options::of(&matches) {
        Ok(options) => Some(options.wait),
        Err(_) => None,
    };
    drop(matches);
    Ok(wait)
}

#[test]
fn a_key_waits_as_long_as_a_value_takes_or_as_is_said(rt: HostRuntime) -> Result<(), Fail> {
    let mut right = true;
    for (timeout, wait, millis) in [
        ("--timeout=3s", "--rest=1s", Some(3_000)),
        ("--timeout=3s", "--wait=500ms", Some(500)),
        ("--timeout=3s", "--wait=0", None),
    ] {
        let words = ["peer_front", "--listen", "127.0.0.1:1", timeout, wait];
        right &= wait_of(rt.alloc(), &words)? == millis.map(Duration::from_millis);
    }
    assert!(rt; right);
    Ok(())
}

// How long a value may take by these words until it is told, and the flag that is for services, or none where one cannot be used.
fn slow_of(alloc: Global, word: &str) -> Result<Option<(Option<Duration>, bool)>, Fail> {
    let words = ["peer_front", "--listen", "127.0.0.1:1", word];
    let matches = matches_of(alloc, &words)?;
    let slow = match Options::of(&matches) {
        Ok(options) => Some((options.slow, options.for_services == Some("slow"))),
        Err(_) => None,
    };
    drop(matches);
    Ok(slow)
}

#[test]
fn a_value_is_slow_if_it_is_said_from_when_on(rt: HostRuntime) -> Result<(), Fail> {
    let alloc = rt.alloc();
    let right = slow_of(alloc, "--slow=1.5s")? == Some((Some(Duration::from_millis(1_500)), true));
    let usual = slow_of(alloc, "--demo")? == Some((None, false));
    let none = slow_of(alloc, "--slow=0")? == None;
    assert!(rt; right);
    assert!(rt; usual);
    assert!(rt; none);
    Ok(())
}

// How many bytes the cache of a group keeps by these words, or none where one cannot be used.
fn cache_bytes(alloc: Global, words: &[&str]) -> Result<Option<u64>, Fail> {
    let matches = matches_of(alloc, words)?;
    let bytes = match Options::of(&matches) {
        Ok(options) => Some(options.cache_bytes),
        Err(_) => None,
    };
    drop(matches);
    Ok(bytes)
}

#[test]
fn sizes_are_numbers_with_a_unit(rt: HostRuntime) -> Result<(), Fail> {
    let alloc = rt.alloc();
    let mut right = true;
    for (flag, bytes) in [
        ("--cache=0", Some(0)),
        ("--cache=1048576", Some(1_048_576)),
        ("--cache=1KiB", Some(1024)),
        ("--cache=64MiB", Some(67_108_864)),
        ("--cache=2GiB", Some(2_147_483_648)),
        ("--cache=64MB", None),
        ("--cache=MiB", None),
        ("--cache=", None),
        ("--cache=-1", None),
        ("--cache=1 MiB", None),
        ("--cache=18446744073709551616", None),
        ("--cache=18446744073709551615GiB", None),
    ] {
        right &= cache_bytes(alloc, &["peer_front", "--listen", "127.0.0.1:1", flag])? == bytes;
    }
    assert!(rt; right);
    Ok(())
}

// How many keys the cache of a group keeps by these words, where one of them says so, or none where one cannot be used.
fn cache_keys(alloc: Global, words: &[&str]) -> Result<Option<Option<u64>>, Fail> {
    let matches = matches_of(alloc, words)?;
    let keys = match Options::of(&matches) {
        Ok(options) => Some(options.cache_keys),
        Err(_) => None,
    };
    drop(matches);
    Ok(keys)
}

#[test]
fn keys_are_bounded_where_it_is_asked_for(rt: HostRuntime) -> Result<(), Fail> {
    let alloc = rt.alloc();
    let mut right = true;
    for (flag, keys) in [
        ("--cache-keys=1", Some(Some(1))),
        ("--cache-keys=4096", Some(Some(4096))),
        ("--cache-keys=4294967296", Some(Some(4_294_967_296))),
        ("--cache-keys=4294967297", None),
        ("--cache=1MiB", Some(None)),
    ] {
        right &= cache_keys(alloc, &["peer_front", "--listen", "127.0.0.1:1", flag])? == keys;
    }
    assert!(rt; right);
    Ok(())
}

#[test]
fn an_address_has_a_port(rt: HostRuntime) -> Result<(), Fail> {
    let alloc = rt.alloc();
    let mut right = true;
    for word in ["127.0.0.1:0", "name:65535", "[::1]:80", ":80", "80", "0"] {
        let text = told(alloc, &["peer_front", "--listen", word])?;
        right &= text.as_str().is_empty();
    }
    for word in [
        "127.0.0.1",
        "",
        ":",
        "::80",
        ":65536",
        "65536",
        "+80",
        "127.0.0.1:",
        "127.0.0.1:65536",
        "127.0.0.1:+80",
        "a:b",
        "::1",
        "fd00::10:20",
        "[::1]",
    ] {
        let text = told(alloc, &["peer_front", "--listen", word])?;
        right &= text.as_str().ends_with(
            ": a port, or an address and a port, is needed, such as :8001 or 127.0.0.1:8001",
        );
    }
    assert!(rt; right);
    Ok(())
}

#[test]
fn a_port_alone_is_that_of_every_address(rt: HostRuntime) -> Result<(), Fail> {
    let mut right = true;
    for (word, address) in [
        (":8001", ListenAddress::Everywhere(8001)),
        ("8001", ListenAddress::Everywhere(8001)),
        ("0.0.0.0:8001", ListenAddress::At("0.0.0.0:8001")),
        ("[::]:8001", ListenAddress::At("[::]:8001")),
    ] {
        let words = ["peer_front", "--listen", word];
        let matches = matches_of(rt.alloc(), &words)?;
        right &= Options::of(&matches).is_ok_and(|options| options.listen == address);
        drop(matches);
    }
    assert!(rt; right);
    Ok(())
}

#[test]
fn a_page_has_a_port(rt: HostRuntime) -> Result<(), Fail> {
    let alloc = rt.alloc();
    let page = "a port, or an address and a port, is needed, such as 9180 or 127.0.0.1:9180";
    let mut right = tells(alloc, "--stats", "9180", "")?;
    right &= tells(alloc, "--stats", "0.0.0.0:9180", "")?;
    for word in ["0", "65536", "+1", "127.0.0.1", ":9180", ""] {
        let text = format!(in alloc; "--stats {word}: {page}")?;
        right &= tells(alloc, "--stats", word, text.as_str())?;
    }
    assert!(rt; right);
    Ok(())
}

// The room within so many files, and how many are opened at most, or none where a word cannot be used.
fn room(
    alloc: Global,
    words: &[&str],
    files: usize,
    has_services: bool,
) -> Result<Option<(Room, usize)>, Fail> {
    let matches = matches_of(alloc, words)?;
    let room = match Options::of(&matches) {
        Ok(options) => Some((
            options.room_within(files, has_services),
            options.files(has_services),
        )),
        Err(_) => None,
    };
    drop(matches);
    Ok(room)
}

#[test]
fn few_files_leave_less_room(rt: HostRuntime) -> Result<(), Fail> {
    let usual = ["peer_front", "--listen", "127.0.0.1:1"];
    let fetchers = ["peer_front", "--listen", "127.0.0.1:1", "--fetchers", "4"];
    let mut right = true;
    for (words, files, has_services, connections, under_way, most) in [
        (usual.as_slice(), 12_198, true, 10_000, 1_024, 12_198),
        (usual.as_slice(), 12_197, true, 9_999, 1_024, 12_198),
        (usual.as_slice(), 1_024, true, 438, 218, 12_198),
        (usual.as_slice(), 1_024, false, 874, 1_024, 10_150),
        (usual.as_slice(), 150, true, 1, 1, 12_198),
        (usual.as_slice(), 10_150, false, 10_000, 1_024, 10_150),
        (fetchers.as_slice(), 20_000, true, 10_000, 1_024, 18_342),
        (fetchers.as_slice(), 1_024, true, 442, 54, 18_342),
    ] {
        let seen = room(rt.alloc(), words, files, has_services)?;
        let expected = Room {
            connections,
            under_way,
        };
        right &= seen == Some((expected, most));
    }
    assert!(rt; right);
    Ok(())
}

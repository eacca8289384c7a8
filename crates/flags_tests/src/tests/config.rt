//! Files that say what is served.

use super::matches_of;
use peer_config::{Config, Group, Header, HeaderFault, NoConfig, Place, line_of, words_of};
use std::alloc::Global;
use std::test::Fail;
use std::time::Duration;

// What cannot be used of a text, as the program says it, or nothing.
fn told(alloc: Global, text: &str) -> Result<String, Fail> {
    let config = match Config::of(alloc, text.as_bytes()) {
        Ok(config) => config,
        Err(fault) => return Ok(format!(in alloc; "{fault}")?),
    };
    let said = match config.bad_entry() {
        Some(bad) => {
            let line = line_of(alloc, text.as_bytes(), bad.place);
            format!(in alloc; "line {line}: {}: {}", bad.place, bad.fault)
        }
        None => Ok(String::new(alloc)),
    };
    drop(config);
    Ok(said?)
}

// The words that a text and these words of the command line come to, with a space between.
fn spoken(alloc: Global, text: &str, own: &[&str]) -> Result<String, Fail> {
    let matches = matches_of(alloc, own)?;
    let mut config = Config::of(alloc, text.as_bytes()).map_err(|_| "no file")?;
    config.note_given(&matches);
    let mut copies = Vec::new(alloc);
    for word in own {
        copies.push(String::from_str(alloc, word)?)?;
    }
    let words = words_of(alloc, &config, copies.as_slice())?;
    let mut spoken = String::new(alloc);
    for word in words.iter() {
        spoken.push_str(word.as_str())?;
        spoken.push(' ')?;
    }
    drop(matches);
    Ok(spoken)
}

#[test]
fn a_file_stands_for_words(rt: HostRuntime) -> Result<(), Fail> {
    let text =
        "listen = \":1\"\nloops = 4\ncache = \"1GiB\"\ndemo = true\nuntil-eof = false\n[groups.b]\nurl = \"http://b/\"\n[groups]\na.table = \"t\"\n";
    let said = spoken(rt.alloc(), text, &["peer_front", "--config", "f"])?;
    let words =
        "peer_front --cache=1GiB --demo --listen=:1 --loops=4 --table=t --config f b=http://b/ ";
    assert!(rt; said.as_str() == words);
    Ok(())
}

#[test]
fn the_command_line_wins(rt: HostRuntime) -> Result<(), Fail> {
    let text =
        "listen = \":1\"\nloops = 4\ntable = \"t\"\ngroups.a.url = \"http://a/\"\ngroups.b.url = \"http://b/\"\n";
    let own = [
        "peer_front",
        "--config",
        "f",
        "--loops",
        "2",
        "--table",
        "u",
        "a=http://c/",
    ];
    let said = spoken(rt.alloc(), text, &own)?;
    let words = "peer_front --listen=:1 --config f --loops 2 --table u a=http://c/ b=http://b/ ";
    assert!(rt; said.as_str() == words);
    Ok(())
}

#[test]
fn what_cannot_be_used_is_told_with_its_line(rt: HostRuntime) -> Result<(), Fail> {
    let mut right = true;
    for (text, said) in [
        ("", ""),
        ("demo = true\n\n[groups.a]\nurl = \"u\"\n", ""),
        (
            "loops = 2\nlooops = 2\n",
            "line 2: looops: there is no such flag",
        ),
        (
            "loops = 2\ncheck = true\n",
            "line 2: check: there is no such flag",
        ),
        (
            "# the demonstration\n\ndemo = 1",
            "line 3: demo: true or false is needed",
        ),
        (
            "loops = [\n2,\n]\n",
            "line 3: loops: a text or a whole number is needed",
        ),
        (
            "timeout = 1.5\n",
            "line 1: timeout: a text or a whole number is needed",
        ),
        (
            "groups = 3\n",
            "line 1: groups: groups are tables, such as [groups.colors]",
        ),
        (
            "[groups.a]\nurl = \"u\"\ncash = 1\n",
            "line 3: groups.a.cash: a group has no such key: url, table, header, timeout, connect_timeout, under_way, cache and cache_keys are those it may have",
        ),
        (
            "[groups.a]\nurl = 1\ntable = true\n",
            "line 3: groups.a.table: a text or a whole number is needed",
        ),
        (
            "[groups.a]\nurl = \"u\"\ntable = \"t\"\n",
            "line 1: groups.a: url or table is needed, and not both",
        ),
        (
            "\n[groups.'a/b']\nurl = \"u\"\n",
            "line 2: groups.a/b: the name of a group has no = and no slash, and is not empty",
        ),
        (
            "table = \"t\"\n[groups.a]\ntable = \"u\"\n",
            "line 3: groups.a.table: one table is served, and another one stands elsewhere in the file",
        ),
        (
            "[groups]\nb = 1\n",
            "line 2: groups.b: a group is a table with url or table, such as url = \"http://10.0.0.7/colors/\"",
        ),
        ("loops = 2\nloops = 3\n", "line 2: duplicate key"),
        (
            "loops = 2\nloops 3\n",
            "line 2: key with no value, expected `=`",
        ),
    ] {
        right &= told(rt.alloc(), text)?.as_str() == said;
    }
    assert!(rt; right);
    Ok(())
}

// What cannot be used of a group at a service with these fields, from behind its place on.
fn told_of_fields(alloc: Global, fields: &str) -> Result<String, Fail> {
    let text = format!(in alloc; "[groups.a]\nurl = \"u\"\nheader = {fields}\n")?;
    let said = told(alloc, text.as_str())?;
    let rest = said.as_str().strip_prefix("line 3: groups.a.header: ");
    Ok(String::from_str(alloc, rest.unwrap_or(said.as_str()))?)
}

const TEXTS: &str = "a list of texts is needed, such as [\"Authorization: Bearer @FILE\"]";

const COLON: &str =
    "field 1: a name, a colon and a value are needed, such as \"Authorization: Bearer @FILE\"";

const NAME: &str = "field 1: its name is no token of letters, digits and !#$%&'*+-.^_`|~";

const VALUE: &str = "field 1: its value has a byte that may not stand there";

const OWN: &str = "field 1: a field of this name is sent already, or is one of the connection";

#[test]
fn fields_that_cannot_be_sent_are_told_with_their_line(rt: HostRuntime) -> Result<(), Fail> {
    let mut right = true;
    for (fields, said) in [
        ("[]", ""),
        ("[\"A: b\", \"!#$%&'*+-.^_`|~: b\"]", ""),
        (
            "[\"A:\", \"B:b c\\td\", \"C:  @/f\", \"D: caf\u{e9} @ f @g\"]",
            "",
        ),
        ("\"A: b\"", TEXTS),
        ("[1]", TEXTS),
        ("[\"A: b\", [\"A: b\"]]", TEXTS),
        ("[\"Authorization\"]", COLON),
        ("[\": b\"]", NAME),
        ("[\"A b: c\"]", NAME),
        ("[\"A : b\"]", NAME),
        ("[\"\u{e9}: b\"]", NAME),
        ("[\"A: b\\r\\nC: d\"]", VALUE),
        ("[\"A: b\\n\"]", VALUE),
        ("[\"A: b\\u0000\"]", VALUE),
        ("[\"A: b\\u007f\"]", VALUE),
        ("[\"A: b\\u0001 @f\"]", VALUE),
        (
            "[\"A: @ \"]",
            "field 1: the name of a file is needed after @",
        ),
        (
            "[\"A: b @\"]",
            "field 1: the name of a file is needed after @",
        ),
        ("[\"Host: b\"]", OWN),
        ("[\"user-agent: b\"]", OWN),
        ("[\"Content-Length: 0\"]", OWN),
        ("[\"TRANSFER-ENCODING: chunked\"]", OWN),
        ("[\"Connection: close\"]", OWN),
        ("[\"Keep-Alive: 5\"]", OWN),
        ("[\"Proxy-Connection: close\"]", OWN),
        ("[\"TE: trailers\"]", OWN),
        ("[\"Trailer: a\"]", OWN),
        ("[\"Upgrade: b\"]", OWN),
        ("[\"Expect: 100-continue\"]", OWN),
        (
            "[\"A: b\", \"Host: c\"]",
            "field 2: a field of this name is sent already, or is one of the connection",
        ),
    ] {
        right &= told_of_fields(rt.alloc(), fields)?.as_str() == said;
    }
    assert!(rt; right);
    Ok(())
}

// A list of so many fields.
fn list_of(alloc: Global, fields: usize) -> Result<String, Fail> {
    let mut list = String::new(alloc);
    list.push('[')?;
    for _ in 0..fields {
        list.push_str("\"A: b\",")?;
    }
    list.push(']')?;
    Ok(list)
}

#[test]
fn a_group_has_sixteen_fields_at_most(rt: HostRuntime) -> Result<(), Fail> {
    let alloc = rt.alloc();
    let most = list_of(alloc, 16)?;
    let more = list_of(alloc, 17)?;
    assert!(rt; told_of_fields(alloc, most.as_str())?.as_str() == "");
    assert!(rt; told_of_fields(alloc, more.as_str())?.as_str() == "there are more than 16 fields");
    let text = "table = \"t\"\n[groups.a]\ntable = \"t\"\nheader = [\"A: b\"]\n";
    let said = "line 4: groups.a.header: this is for a group with url";
    assert!(rt; told(alloc, text)?.as_str() == said);
    Ok(())
}

const TIME: &str = "a time from 1ms to 60m is needed, such as 500ms, 1.5s or 2m";

const WORD: &str = "a text or a whole number is needed";

const SIZE: &str = "a number of bytes is needed, or of KiB, MiB or GiB, such as 64MiB";

const KEYS: &str = "a number from 1 to 4294967296 is needed";

#[test]
fn words_of_a_group_are_as_those_of_flags(rt: HostRuntime) -> Result<(), Fail> {
    let alloc = rt.alloc();
    let mut right = true;
    for (key, word, said) in [
        ("timeout", "\"500ms\"", ""),
        ("timeout", "60", ""),
        ("timeout", "0", TIME),
        ("timeout", "\"61m\"", TIME),
        ("timeout", "1.5", WORD),
        ("connect_timeout", "\"1.5s\"", ""),
        ("connect_timeout", "\"0.5ms\"", TIME),
        ("connect_timeout", "true", WORD),
        ("under_way", "1", ""),
        ("under_way", "1024", ""),
        ("under_way", "0", "a number from 1 to 1024 is needed"),
        ("under_way", "1025", "a number from 1 to 1024 is needed"),
        ("under_way", "[2]", WORD),
        ("cache", "0", ""),
        ("cache", "\"1GiB\"", ""),
        ("cache", "\"1GB\"", SIZE),
        ("cache", "-1", SIZE),
        ("cache", "0.5", WORD),
        ("cache_keys", "1", ""),
        ("cache_keys", "4294967296", ""),
        ("cache_keys", "0", KEYS),
        ("cache_keys", "4294967297", KEYS),
        ("cache_keys", "\"1KiB\"", KEYS),
        ("cache_keys", "false", WORD),
    ] {
        let text = format!(in alloc; "[groups.a]\nurl = \"u\"\n\n{key} = {word}\n")?;
        let told = told(alloc, text.as_str())?;
        let wanted = if said.is_empty() {
            String::new(alloc)
        } else {
            format!(in alloc; "line 4: groups.a.{key}: {said}")?
        };
        right &= told == wanted;
    }
    assert!(rt; right);
    Ok(())
}

#[test]
fn a_group_has_what_its_keys_say(rt: HostRuntime) -> Result<(), Fail> {
    let text =
        "groups.a = { url = \"u\", timeout = \"1.5s\", connect_timeout = 2, under_way = \"3\" }\ngroups.b.url = \"u\"\n";
    let config = Config::of(rt.alloc(), text.as_bytes()).map_err(|_| "no file")?;
    let said = |group: &Group| (group.timeout(), group.connect_timeout(), group.under_way());
    let own = config.groups.first().map(said);
    let none = config.groups.get(1).map(said);
    drop(config);
    let (long, short) = (Duration::from_millis(1500), Duration::from_secs(2));
    assert!(rt; own == Some((Some(long), Some(short), Some(3))));
    assert!(rt; none == Some((None, None, None)));
    Ok(())
}

#[test]
fn a_group_of_a_table_or_a_service_has_a_cache(rt: HostRuntime) -> Result<(), Fail> {
    let text =
        "[groups.a]\nurl = \"u\"\ncache = \"1GiB\"\n[groups.b]\ntable = \"t\"\ncache = 0\ncache_keys = 1000000\n[groups.c]\nurl = \"u\"\n";
    let alloc = rt.alloc();
    assert!(rt; told(alloc, text)?.as_str() == "");
    let config = Config::of(alloc, text.as_bytes()).map_err(|_| "no file")?;
    let said = |name: &[u8]| {
        let group = config.group(name)?;
        Some((group.cache(), group.cache_keys()))
    };
    let seen = [said(b"a"), said(b"b"), said(b"c"), said(b"d")];
    drop(config);
    let wanted = [
        Some((Some(1_073_741_824), None)),
        Some((Some(0), Some(1_000_000))),
        Some((None, None)),
        None,
    ];
    assert!(rt; seen == wanted);
    Ok(())
}

#[test]
fn a_file_of_a_field_begins_at_a_word(rt: HostRuntime) {
    let header = |name, value, file| Ok(Header { name, value, file });
    assert!(rt; Header::of("A: b c ") == header("A", " b c ", None));
    assert!(rt; Header::of("A:b@c") == header("A", "b@c", None));
    assert!(rt; Header::of("A: Bearer @/run/f ") == header("A", " Bearer ", Some("/run/f")));
    assert!(rt; Header::of("A: @f @g\t") == header("A", " ", Some("f @g")));
    assert!(rt; Header::of("A:b:c\t@f") == header("A", "b:c\t", Some("f")));
    assert!(rt; Header::of("A") == Err(HeaderFault::Colon));
}

#[test]
fn a_file_has_sixty_four_groups(rt: HostRuntime) -> Result<(), Fail> {
    let alloc = rt.alloc();
    let mut text = String::new(alloc);
    for group in 0..64usize {
        let header = list_of(alloc, group % 17)?;
        let entry = format!(in alloc; "[groups.g{group}]\nurl = \"u\"\nheader = {header}\n")?;
        text.push_str(entry.as_str())?;
    }
    assert!(rt; told(alloc, text.as_str())?.as_str() == "");
    let config = Config::of(alloc, text.as_bytes()).map_err(|_| "no file")?;
    let count = config.groups.len();
    let fields = config.groups.first().and_then(|group| group.headers());
    let has_list = fields.is_some_and(|fields| fields.is_empty());
    drop(config);
    assert!(rt; count == 64 && has_list);
    Ok(())
}

#[test]
fn only_toml_is_taken(rt: HostRuntime) -> Result<(), Fail> {
    let alloc = rt.alloc();
    let no_text = Config::of(alloc, b"listen = \"\xff\"\n");
    assert!(rt; matches!(no_text, Err(NoConfig::Form(1, _))));
    assert!(rt; line_of(alloc, b"a = 1\nb = 2\n", Place::Key("b")) == 2);
    Ok(())
}

//! Lines, and their times.

mod records;

use peer_log::{Entry, Field, Level, LogForm, Said, line_of, now_text, time_text};
use std::alloc::Global;
use std::test::Fail;

// Whether an entry has this line.
fn is_line(alloc: Global, form: LogForm, entry: &Entry<'_>, line: &[u8]) -> Result<bool, Fail> {
    let made = line_of(alloc, form, b"TIME", entry)?;
    Ok(made.as_slice() == line)
}

// The fields of an entry on a service.
fn fields<'a>(group: &'a [u8], key: &'a [u8]) -> [Field<'a>; 4] {
    [
        Field {
            name: b"group",
            said: Said::Name(group),
        },
        Field {
            name: b"service",
            said: Said::Word(b"10.0.0.7:80"),
        },
        Field {
            name: b"more",
            said: Said::Number(12),
        },
        Field {
            name: b"last_key",
            said: Said::Name(key),
        },
    ]
}

#[test]
fn an_entry_is_a_line_of_text_or_an_object(rt: HostRuntime) -> Result<(), Fail> {
    let fields = fields(b"colors", b"red/7");
    let entry = Entry {
        level: Level::Warn,
        what: b"origin answered 503",
        fields: &fields,
    };
    let text =
        b"TIME warn origin answered 503: group=colors service=10.0.0.7:80 more=12 last_key=red%2F7\n";
    let json =
        b"{\"time\":\"TIME\",\"level\":\"warn\",\"what\":\"origin answered 503\",\"group\":\"colors\",\"service\":\"10.0.0.7:80\",\"more\":12,\"last_key\":\"red%2F7\"}\n";
    let is_text = is_line(rt.alloc(), LogForm::Text, &entry, text)?;
    let is_json = is_line(rt.alloc(), LogForm::Json, &entry, json)?;
    assert!(rt; is_text);
    assert!(rt; is_json);
    Ok(())
}

#[test]
fn an_entry_without_fields_has_no_colon(rt: HostRuntime) -> Result<(), Fail> {
    let entry = Entry {
        level: Level::Info,
        what: b"it ends",
        fields: &[],
    };
    let is_text = is_line(rt.alloc(), LogForm::Text, &entry, b"TIME info it ends\n")?;
    let json = b"{\"time\":\"TIME\",\"level\":\"info\",\"what\":\"it ends\"}\n";
    let is_json = is_line(rt.alloc(), LogForm::Json, &entry, json)?;
    assert!(rt; is_text);
    assert!(rt; is_json);
    Ok(())
}

#[test]
fn a_line_is_one_line_whatever_names_are(rt: HostRuntime) -> Result<(), Fail> {
    let fields = fields(b"\"\\\n\xC3\xA9", b"a b\x00%~\x7F");
    let entry = Entry {
        level: Level::Warn,
        what: b"\"a\"\n",
        fields: &fields,
    };
    let text =
        b"TIME warn %22a%22%0A: group=%22%5C%0A%C3%A9 service=10.0.0.7:80 more=12 last_key=a%20b%00%25~%7F\n";
    let is_text = is_line(rt.alloc(), LogForm::Text, &entry, text)?;
    assert!(rt; is_text);
    Ok(())
}

#[test]
fn words_keep_what_can_be_seen(rt: HostRuntime) -> Result<(), Fail> {
    let field = [Field {
        name: b"addresses",
        said: Said::Word(b"[::1]:80,10.0.0.7:80 %\"\\\x1F\x80"),
    }];
    let entry = Entry {
        level: Level::Info,
        what: b"addresses changed",
        fields: &field,
    };
    let text = b"TIME info addresses changed: addresses=[::1]:80,10.0.0.7:80%20%25%22%5C%1F%80\n";
    let is_text = is_line(rt.alloc(), LogForm::Text, &entry, text)?;
    assert!(rt; is_text);
    Ok(())
}

// Whether so many milliseconds are this time.
fn is_time(alloc: Global, millis: i64, text: &str) -> bool {
    match time_text(alloc, millis) {
        Some(time) => time.as_str() == text,
        None => false,
    }
}

#[test]
fn a_time_is_a_day_of_the_calendar(rt: HostRuntime) {
    let mut right = true;
    for (millis, text) in [
        (0, "1970-01-01T00:00:00.000Z"),
        (951_868_799_999, "2000-02-29T23:59:59.999Z"),
        (951_868_800_000, "2000-03-01T00:00:00.000Z"),
        (1_709_208_000_050, "2024-02-29T12:00:00.050Z"),
        (1_735_689_599_999, "2024-12-31T23:59:59.999Z"),
        (1_735_689_600_000, "2025-01-01T00:00:00.000Z"),
        (1_796_017_387_123, "2026-11-30T05:43:07.123Z"),
        (4_107_542_399_000, "2100-02-28T23:59:59.000Z"),
        (4_107_542_400_000, "2100-03-01T00:00:00.000Z"),
    ] {
        right &= is_time(rt.alloc(), millis, text);
    }
    assert!(rt; right);
}

#[test]
fn the_clock_has_a_time(rt: HostRuntime) {
    assert!(rt; now_text(&rt, rt.alloc()).is_some_and(|time| time.len() == 24));
}

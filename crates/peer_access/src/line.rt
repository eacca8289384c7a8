//! The line of a reply.

use crate::record::{Asked, Found, ReplyRecord};
use peer_log::{Entry, Field, Level, LogForm, Said, put_line};
use std::alloc::AllocError;
use std::time::Duration;

// What stands for what is not known.
const UNKNOWN: Said<'static> = Said::Word(b"-");

// How many microseconds a time has, 2^64 - 1 at most.
fn micros_of(time: Duration) -> u64 {
    time.as_secs()
        .saturating_mul(1_000_000)
        .saturating_add(u64::from(time.subsec_micros()))
}

// How the value of a reply was found, in a word.
fn word_of(found: Found) -> &'static [u8] {
    match found {
        Found::Nothing => b"-",
        Found::Hit => b"hit",
        Found::Led => b"led",
        Found::Joined => b"joined",
    }
}

// The group that was asked for, by the names of those that are served.
fn group_of<'a>(asked: &'a Asked, name: &'a [u8]) -> Said<'a> {
    match asked {
        Asked::Nothing => UNKNOWN,
        Asked::NoGroup(text) => Said::Name(text.as_slice()),
        Asked::Key(_, _) => Said::Name(name),
    }
}

// The key that was asked for.
fn key_of<'a>(asked: &'a Asked) -> Said<'a> {
    match asked {
        Asked::Key(_, text) => Said::Name(text.as_slice()),
        _ => UNKNOWN,
    }
}

/// Whom and what a line names beside its record: the text of the client's address, and the name of the record's group.
#[derive(Clone, Copy)]
pub struct LineNames<'a> {
    pub client: &'a [u8],
    pub group: &'a [u8],
}

// The fields of a line.
fn fields_of<'a>(record: &'a ReplyRecord, names: LineNames<'a>) -> [Field<'a>; 7] {
    [
        Field {
            name: b"client",
            said: Said::Word(names.client),
        },
        Field {
            name: b"group",
            said: group_of(&record.asked, names.group),
        },
        Field {
            name: b"key",
            said: key_of(&record.asked),
        },
        Field {
            name: b"status",
            said: Said::Number(u64::from(record.status)),
        },
        Field {
            name: b"bytes",
            said: Said::Number(record.bytes as u64),
        },
        Field {
            name: b"found",
            said: Said::Word(word_of(record.found)),
        },
        Field {
            name: b"micros",
            said: Said::Number(micros_of(record.took)),
        },
    ]
}

/// Appends the line of a reply that was put at this time.
pub fn put_record(
    line: &mut Vec<u8>,
    form: LogForm,
    time: &[u8],
    record: &ReplyRecord,
    names: LineNames<'_>,
) -> Result<(), AllocError> {
    let fields = fields_of(record, names);
    let entry = Entry {
        level: Level::Info,
        what: b"reply",
        fields: &fields,
    };
    put_line(line, form, time, &entry)
}

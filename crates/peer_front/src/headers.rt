//! The fields that a file has the requests of a group send, some of whose values end with what another file has. No value of one is
//! said anywhere.

use crate::config::{ConfigFile, Said};
use crate::exit::{BAD_WORD, Exit, OUT_OF_MEMORY, refuse};
use peer_config::{Group, Header, Place};
use peer_http::{Field, FieldFault};
use std::alloc::Global;
use std::fmt::{Display, Formatter};
use std::fs::Files;
use std::io::{ErrorKind, Read};
use std::{fmt, fs, io};

// The most bytes of the lines of the fields of a group, and of a file whose content ends a value.
const MAX_BYTES: usize = 8192;

// Why a field cannot be sent.
#[derive(Debug, Drop)]
enum NoField {
    File(io::Error),
    Long,
    Empty,
    Value,
    Memory,
}

impl Display for NoField {
    fn fmt<W: fmt::Write>(&self, f: &mut Formatter<W>) -> fmt::Result {
        match self {
            NoField::File(error) => write!(f, "{error}"),
            NoField::Long => f.write_str("it has more than 8 KiB"),
            NoField::Empty => f.write_str("it has nothing"),
            NoField::Value => f.write_str(
                "it has a byte that may not stand in the value of a field",
            ),
            NoField::Memory => f.write_str("out of memory"),
        }
    }
}

// The bytes without the newline at their end, if they have one: LF, or CR and LF.
fn without_newline<'b>(bytes: &'b [u8]) -> &'b [u8] {
    match bytes {
        [line @ .., b'\r', b'\n'] => line,
        [line @ .., b'\n'] => line,
        _ => bytes,
    }
}

// Puts what a file has, without its final newline, behind the bytes of a value.
fn put_content<H: Files>(
    rt: &H,
    alloc: Global,
    path: &str,
    value: &mut Vec<u8>,
) -> Result<(), NoField> {
    let file = match fs::open(rt, path) {
        Ok(file) => file,
        Err(error) => return Err(NoField::File(error)),
    };
    let mut bytes = Vec::new(alloc);
    let mut limited = file.take(MAX_BYTES as u64 + 1);
    match limited.read_to_end(&mut bytes) {
        Ok(_) if bytes.len() > MAX_BYTES => return Err(NoField::Long),
        Ok(_) => {}
        Err(error) if error.kind() == ErrorKind::OutOfMemory => return Err(NoField::Memory),
        Err(error) => return Err(NoField::File(error)),
    }
    let content = without_newline(bytes.as_slice());
    if content.is_empty() {
        return Err(NoField::Empty);
    }
    match value.extend_from_slice(content) {
        Ok(()) => Ok(()),
        Err(_) => Err(NoField::Memory),
    }
}

// The field that stands for this one of a file.
fn field_of<H: Files>(rt: &H, alloc: Global, header: Header<'_>) -> Result<Field, NoField> {
    let Ok(mut value) = header.value.as_bytes().to_vec(alloc) else {
        return Err(NoField::Memory);
    };
    if let Some(path) = header.file {
        put_content(rt, alloc, path, &mut value)?;
    }
    match Field::new(alloc, header.name.as_bytes(), value.as_slice()) {
        Ok(field) => Ok(field),
        Err(FieldFault::Memory) => Err(NoField::Memory),
        Err(_) => Err(NoField::Value),
    }
}

// Says why a field of a group cannot be sent.
fn say_no_field<H: AllocGlobal + Eprint>(
    rt: &H,
    file: &ConfigFile<'_>,
    group: &str,
    header: Header<'_>,
    why: &NoField,
) -> Exit {
    if matches!(why, NoField::Memory) {
        return refuse(rt, &"out of memory", OUT_OF_MEMORY);
    }
    let word = header.file.unwrap_or(header.name);
    file.say(rt, Place::OfGroup(group, "header"), &Said { word, why });
    BAD_WORD
}

// These fields, whatever bytes they have, or says why they cannot be sent.
fn all_fields<H: AllocGlobal + Eprint + Files>(
    rt: &H,
    file: &ConfigFile<'_>,
    group: &str,
    headers: &[String],
) -> Result<Vec<Field>, Exit> {
    let alloc = rt.alloc();
    let mut fields = Vec::new(alloc);
    for text in headers {
        // The file was looked at: each is a field.
        let Ok(header) = Header::of(text.as_str()) else {
            continue;
        };
        let field = match field_of(rt, alloc, header) {
            Ok(field) => field,
            Err(why) => return Err(say_no_field(rt, file, group, header, &why)),
        };
        if fields.push(field).is_err() {
            return Err(refuse(rt, &"out of memory", OUT_OF_MEMORY));
        }
    }
    Ok(fields)
}

// How many bytes the lines of these fields have.
fn bytes_of(fields: &[Field]) -> usize {
    let mut bytes = 0usize;
    for field in fields {
        bytes = bytes.saturating_add(field.line_len());
    }
    bytes
}

/// The fields of the requests of a group, or says why they cannot be sent.
pub fn fields_of<H: AllocGlobal + Eprint + Files>(
    rt: &H,
    file: &ConfigFile<'_>,
    group: &Group,
) -> Result<Vec<Field>, Exit> {
    let name = group.name.as_str();
    let fields = all_fields(rt, file, name, group.headers().unwrap_or(&[]))?;
    if bytes_of(fields.as_slice()) > MAX_BYTES {
        file.say(
            rt,
            Place::OfGroup(name, "header"),
            &"has more than 8 KiB in all",
        );
        return Err(BAD_WORD);
    }
    Ok(fields)
}

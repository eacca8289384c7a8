//! Lines: entries as text, or as JSON.
ghost use Rattle.std.specs.Prelude.{◌≡◌, ◌++◌, codes, IfOk, OnOk};
ghost use Rattle.peer_log.specs.Lines.{colon, field_text, fields_text, json_field, json_fields, json_line, json_said};
ghost use Rattle.peer_log.specs.Lines.{level_text, line_text, said_text, string_text, text_line};

use crate::entry::{Entry, Field, Level, LogForm, Said};
use crate::escape::{Escapes, put_escaped};
use itoa::Buffer;
use std::alloc::{AllocError, Global};

// Appends how bad it is.
fn put_level(line: &mut Vec<u8>, level: Level) -> Result<(), AllocError>
    ensures { OnOk result (line.new.items ≡ line.old.items ++ level_text level) }
{
    match level {
        Level::Info => line.extend_from_slice(b"info"),
        Level::Warn => line.extend_from_slice(b"warn"),
    }
}

// Appends what a field says.
fn put_said(line: &mut Vec<u8>, said: Said<'_>) -> Result<(), AllocError>
    ensures { OnOk result (line.new.items ≡ line.old.items ++ said_text said.entry) }
{
    match said {
        Said::Number(number) => line.extend_from_slice(Buffer::new().format(number).as_bytes()),
        Said::Name(name) => put_escaped(line, Escapes::Url, name),
        Said::Word(word) => put_escaped(line, Escapes::Word, word),
    }
}

// Appends a text as a string of JSON.
fn put_string(line: &mut Vec<u8>, escapes: Escapes, text: &[u8]) -> Result<(), AllocError>
    ensures { OnOk result (line.new.items ≡ line.old.items ++ string_text escapes text.now) }
{
    line.extend_from_slice(b"\"")?;
    put_escaped(line, escapes, text)?;
    line.extend_from_slice(b"\"")?;
    Ok(())
}

// Appends what a field says, as JSON.
fn put_json_said(line: &mut Vec<u8>, said: Said<'_>) -> Result<(), AllocError>
    ensures { OnOk result (line.new.items ≡ line.old.items ++ json_said said.entry) }
{
    match said {
        Said::Number(number) => line.extend_from_slice(Buffer::new().format(number).as_bytes()),
        Said::Name(name) => put_string(line, Escapes::Url, name),
        Said::Word(word) => put_string(line, Escapes::Word, word),
    }
}

// Appends a field.
fn put_field(line: &mut Vec<u8>, field: &Field<'_>) -> Result<(), AllocError>
    ensures { OnOk result (line.new.items ≡ line.old.items ++ field_text field.now) }
{
    line.extend_from_slice(b" ")?;
    line.extend_from_slice(field.name)?;
    line.extend_from_slice(b"=")?;
    put_said(line, field.said)?;
    Ok(())
}

// Appends a field, as JSON.
fn put_json_field(line: &mut Vec<u8>, field: &Field<'_>) -> Result<(), AllocError>
    ensures { OnOk result (line.new.items ≡ line.old.items ++ json_field field.now) }
{
    line.extend_from_slice(b",\"")?;
    line.extend_from_slice(field.name)?;
    line.extend_from_slice(b"\":")?;
    put_json_said(line, field.said)?;
    Ok(())
}

// Appends all fields.
fn put_fields(line: &mut Vec<u8>, fields: &[Field<'_>]) -> Result<(), AllocError>
    ensures { OnOk result (line.new.items ≡ line.old.items ++ fields_text fields.now) }
{
    for field in fields {
        put_field(line, field)?;
    }
    Ok(())
}

// Appends all fields, as JSON.
fn put_json_fields(line: &mut Vec<u8>, fields: &[Field<'_>]) -> Result<(), AllocError>
    ensures { OnOk result (line.new.items ≡ line.old.items ++ json_fields fields.now) }
{
    for field in fields {
        put_json_field(line, field)?;
    }
    Ok(())
}

// Appends what stands between what happened and the fields.
fn put_colon(line: &mut Vec<u8>, fields: &[Field<'_>]) -> Result<(), AllocError>
    ensures { OnOk result (line.new.items ≡ line.old.items ++ colon fields.now) }
{
    match fields {
        [] => Ok(()),
        _ => line.extend_from_slice(b":"),
    }
}

// Appends a line of text.
fn put_text_line(line: &mut Vec<u8>, time: &[u8], entry: &Entry<'_>) -> Result<(), AllocError>
    ensures { OnOk result (line.new.items ≡ line.old.items ++ text_line time.now entry.now) }
{
    line.extend_from_slice(time)?;
    line.extend_from_slice(b" ")?;
    put_level(line, entry.level)?;
    line.extend_from_slice(b" ")?;
    put_escaped(line, Escapes::Sentence, entry.what)?;
    put_colon(line, entry.fields)?;
    put_fields(line, entry.fields)?;
    line.extend_from_slice(b"\n")?;
    Ok(())
}

// Appends a line of JSON.
fn put_json_line(line: &mut Vec<u8>, time: &[u8], entry: &Entry<'_>) -> Result<(), AllocError>
    ensures { OnOk result (line.new.items ≡ line.old.items ++ json_line time.now entry.now) }
{
    line.extend_from_slice(b"{\"time\":\"")?;
    line.extend_from_slice(time)?;
    line.extend_from_slice(b"\",\"level\":\"")?;
    put_level(line, entry.level)?;
    line.extend_from_slice(b"\",\"what\":\"")?;
    put_escaped(line, Escapes::Sentence, entry.what)?;
    line.extend_from_slice(b"\"")?;
    put_json_fields(line, entry.fields)?;
    line.extend_from_slice(b"}\n")?;
    Ok(())
}

/// Appends the line of an entry, with the time at which it was so (`time_text`), in this form.
pub fn put_line(
    line: &mut Vec<u8>,
    form: LogForm,
    time: &[u8],
    entry: &Entry<'_>,
) -> Result<(), AllocError>
    ensures { OnOk result (line.new.items ≡ line.old.items ++ line_text form time.now entry.now) }
{
    match form {
        LogForm::Text => put_text_line(line, time, entry),
        LogForm::Json => put_json_line(line, time, entry),
    }
}

/// The line of an entry, with the time at which it was so (`time_text`), in this form.
pub fn line_of(
    alloc: Global,
    form: LogForm,
    time: &[u8],
    entry: &Entry<'_>,
) -> Result<Vec<u8>, AllocError>
    ensures { IfOk result (λ line. line.items ≡ line_text form time.now entry.now) }
{
    let mut line = Vec::new(alloc);
    put_line(&mut line, form, time, entry)?;
    Ok(line)
}

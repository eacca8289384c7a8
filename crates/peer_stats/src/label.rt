//! Names of groups as values of labels, in Prometheus' text format 0.0.4.
ghost use Rattle.std.specs.Prelude.{◌≡◌, ◌<◌, ◌++◌, OnOk};
ghost use Rattle.std.specs.Char.{digit_char};
ghost use Rattle.std.specs.Str.{is_utf8};
ghost use Rattle.peer_stats.specs.Labels.{byte_text, hex_text, label_text};

use std::alloc::AllocError;
use std::str;

// The hexadecimal digit of a number.
fn hex_digit(number: u8) -> u8
    requires { number < 16 }
    ensures { result ≡ digit_char number }
{
    if number < 10 {
        b'0' + number
    } else {
        b'a' + (number - 10)
    }
}

/// The decimal digit of a number.
pub(crate) fn decimal_digit(number: u8) -> u8
    requires { number < 10 }
    ensures { result ≡ digit_char number }
{
    hex_digit(number)
}

// Whether a name is UTF-8.
fn is_text(name: &[u8]) -> bool
    ensures { result ≡ is_utf8 name.now }
{
    str::from_utf8(name).is_ok()
}

// Appends a byte in two digits.
fn put_hex(page: &mut Vec<u8>, byte: u8) -> Result<(), AllocError>
    ensures { OnOk result (page.new.items ≡ page.old.items ++ hex_text byte) }
{
    page.push(hex_digit(byte / 16))?;
    page.push(hex_digit(byte % 16))?;
    Ok(())
}

// Appends a byte of a name, which is UTF-8 or not.
fn put_byte(page: &mut Vec<u8>, is_text: bool, byte: u8) -> Result<(), AllocError>
    ensures { OnOk result (page.new.items ≡ page.old.items ++ byte_text is_text byte) }
{
    if byte == b'\\' {
        return page.extend_from_slice(b"\\\\");
    }
    if byte == b'"' {
        return page.extend_from_slice(b"\\\"");
    }
    if byte == b'\n' {
        return page.extend_from_slice(b"\\n");
    }
    if is_text || byte < 128 {
        page.push(byte)?;
        return Ok(());
    }
    page.extend_from_slice(b"\\\\x")?;
    put_hex(page, byte)?;
    Ok(())
}

/// Appends a name.
pub(crate) fn put_label(page: &mut Vec<u8>, name: &[u8]) -> Result<(), AllocError>
    ensures { OnOk result (page.new.items ≡ page.old.items ++ label_text name.now) }
{
    let is_text = is_text(name);
    for byte in name {
        put_byte(page, is_text, *byte)?;
    }
    Ok(())
}

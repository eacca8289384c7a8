//! Bytes as a line has them.
ghost use Rattle.std.specs.Prelude.{◌≡◌, ◌<◌, ◌++◌, OnOk};
ghost use Rattle.peer_log.specs.Escapes.{escaped_byte, escaped_text, is_kept, is_unreserved, is_seen, upper_digit};

use std::alloc::AllocError;

/// Which bytes stand in a line as they are. All others are told by a `%` and two digits.
#[derive(Clone, Copy, Debug, PartialEq, Eq)]
pub(crate) enum Escapes {
    /// Letters, digits and `-._~`.
    Url,
    /// Those that can be seen, but for `%`, `"` and `\`.
    Word,
    /// The same, and spaces.
    Sentence,
}

// The hexadecimal digit of a number, in capitals.
fn upper_digit(number: u8) -> u8
    requires { number < 16 }
    ensures { result ≡ upper_digit number }
{
    if number < 10 {
        b'0' + number
    } else {
        b'A' + (number - 10)
    }
}

// Whether a byte can be seen, and stands for itself alone.
fn is_seen(byte: u8) -> bool
    ensures { result ≡ is_seen byte }
{
    b' ' < byte && byte < 127 && byte != b'%' && byte != b'"' && byte != b'\\'
}

// Whether a byte stands for itself anywhere in a URL.
fn is_unreserved(byte: u8) -> bool
    ensures { result ≡ is_unreserved byte }
{
    b'a' <= byte && byte <= b'z'
        || b'A' <= byte && byte <= b'Z'
        || b'0' <= byte && byte <= b'9'
        || byte == b'-'
        || byte == b'.'
        || byte == b'_'
        || byte == b'~'
}

impl Escapes {
    // Whether a byte stands in a line as it is.
    fn keeps(self, byte: u8) -> bool
        ensures { result ≡ is_kept self byte }
    {
        match self {
            Escapes::Url => is_unreserved(byte),
            Escapes::Word => is_seen(byte),
            Escapes::Sentence => byte == b' ' || is_seen(byte),
        }
    }
}

// Appends a byte as a line has it.
fn put_byte(line: &mut Vec<u8>, escapes: Escapes, byte: u8) -> Result<(), AllocError>
    ensures { OnOk result (line.new.items ≡ line.old.items ++ escaped_byte escapes byte) }
{
    if escapes.keeps(byte) {
        line.push(byte)?;
        return Ok(());
    }
    line.push(b'%')?;
    line.push(upper_digit(byte / 16))?;
    line.push(upper_digit(byte % 16))?;
    Ok(())
}

/// Appends a text as a line has it.
pub(crate) fn put_escaped(
    line: &mut Vec<u8>,
    escapes: Escapes,
    text: &[u8],
) -> Result<(), AllocError>
    ensures { OnOk result (line.new.items ≡ line.old.items ++ escaped_text escapes text.now) }
{
    for byte in text {
        put_byte(line, escapes, *byte)?;
    }
    Ok(())
}

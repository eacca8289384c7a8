//! Names and values of fields (RFC 9110, section 5): each test has a definition in `specs/`, and
//! answers as that does.
ghost use Rattle.std.specs.Prelude.{◌≡◌};
ghost use Rattle.std.specs.List.{list_all};
ghost use Rattle.std.specs.Char.{is_ascii_digit};
ghost use Rattle.httparse.specs.Grammar.{trim_ows};
ghost use Rattle.peer_head.specs.Fields.{is_close, asks_close, is_digits, is_zero};
ghost use Rattle.peer_head.specs.Kinds.{IsKindOf};

use httparse::is_space_or_tab;

/// The fields that the rules on heads name.
#[derive(Clone, Copy, Debug, PartialEq, Eq)]
pub enum FieldKind {
    Host,
    Connection,
    ContentLength,
    TransferEncoding,
    Other,
}

/// Which of the fields has this name.
pub fn kind_of(name: &[u8]) -> FieldKind
    ensures { IsKindOf name.now result }
{
    if name.eq_ignore_ascii_case(b"Host") {
        return FieldKind::Host;
    }
    if name.eq_ignore_ascii_case(b"Connection") {
        return FieldKind::Connection;
    }
    if name.eq_ignore_ascii_case(b"Content-Length") {
        return FieldKind::ContentLength;
    }
    if name.eq_ignore_ascii_case(b"Transfer-Encoding") {
        return FieldKind::TransferEncoding;
    }
    FieldKind::Other
}

/// Whether an element of the list is `close`.
pub fn asks_close(value: &[u8]) -> bool
    ensures { result ≡ asks_close value.now }
{
    value.split(|b| *b == b',').any(|element| is_close(element))
}

// Whether the element of a list is `close`.
fn is_close(element: &[u8]) -> bool
    ensures { result ≡ is_close element.now }
{
    trim(element).eq_ignore_ascii_case(b"close")
}

/// Whether the value is one or more digits.
pub fn is_digits(value: &[u8]) -> bool
    ensures { result ≡ is_digits value.now }
{
    !value.is_empty() && all_digits(value)
}

// Whether each byte is a digit.
fn all_digits(value: &[u8]) -> bool
    ensures { result ≡ list_all is_ascii_digit value.now }
{
    value.iter().all(|b| b.is_ascii_digit())
}

/// Whether the digits are all 0.
pub fn is_zero(value: &[u8]) -> bool
    ensures { result ≡ is_zero value.now }
{
    value.iter().all(|b| *b == b'0')
}

// The value without the spaces and tabs at its ends.
fn trim(value: &[u8]) -> &[u8]
    ensures { result.now ≡ trim_ows value.now }
{
    let mut start = 0;
    let mut end = value.len();
    while start < end && is_space_or_tab(value[start]) {
        start += 1;
    }
    while start < end && is_space_or_tab(value[end - 1]) {
        end -= 1;
    }
    &value[start..end]
}

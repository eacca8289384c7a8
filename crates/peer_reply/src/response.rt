//! Bodies read back (`GetResponse` of `groupcache.proto`; the base 128 varints of protobuf).
ghost use Rattle.std.specs.Prelude.{◌≤◌, ◌<◌, ◌+◌, ◌*◌, ◌-◌, ◌∷◌, ℕ, length};
ghost use Rattle.peer_reply.specs.Responses.{ReadsAs};
ghost use Rattle.peer_reply.specs.Lengths.{ReadsLength, HoldsExactly};

use peer_view::MAX_VALUE;

/// Why bytes are no body. At most one of them applies.
#[derive(Clone, Copy, Debug, PartialEq, Eq)]
pub enum PbFault {
    /// The bytes are the beginning of a body.
    Truncated,
    /// The first byte is not the tag of the value.
    Tag,
    /// The length has more than three bytes, is not the shortest, or is above `MAX_VALUE`.
    Varint,
    /// Bytes follow a body.
    Extra,
}

/// The value whose body the bytes are, lent from them.
pub fn read_response(input: &[u8]) -> Result<&[u8], PbFault>
    ensures { ReadsAs input.now result }
{
    match input {
        [] => Err(PbFault::Truncated),
        [0x0A, rest @ ..] => read_value(rest),
        _ => Err(PbFault::Tag),
    }
}

// A length, and what follows it.
#[derive(Clone, Copy)]
struct Length<'a> {
    value: usize,
    rest: &'a [u8],
}

// Reads a body behind its tag.
fn read_value(bytes: &[u8]) -> Result<&[u8], PbFault>
    ensures { ReadsAs (10 ∷ bytes.now) result }
{
    match read_length(bytes) {
        Ok(length) => check_length(length.rest, length.value),
        Err(fault) => Err(fault),
    }
}

// The bytes, where they are so many.
fn check_length(bytes: &[u8], count: usize) -> Result<&[u8], PbFault>
    ensures { HoldsExactly count bytes.now result }
{
    if bytes.len() < count {
        Err(PbFault::Truncated)
    } else if bytes.len() > count {
        Err(PbFault::Extra)
    } else {
        Ok(bytes)
    }
}

// Reads a shortest varint of at most `MAX_VALUE`.
fn read_length(bytes: &[u8]) -> Result<Length<'_>, PbFault>
    ensures { ReadsLength bytes.now result }
{
    match bytes {
        [] => Err(PbFault::Truncated),
        [low, rest @ ..] => {
            if *low < 0x80 {
                Ok(Length {
                    value: usize::from(*low),
                    rest,
                })
            } else {
                read_second(*low, rest)
            }
        }
    }
}

// Reads the rest of a varint whose first byte says that it goes on.
fn read_second(low: u8, bytes: &[u8]) -> Result<Length<'_>, PbFault>
    requires { 128 ≤ low }
    ensures { ReadsLength (low ∷ bytes.now) result }
{
    match bytes {
        [] => Err(PbFault::Truncated),
        [middle, rest @ ..] => {
            if *middle == 0 {
                Err(PbFault::Varint)
            } else if *middle < 0x80 {
                Ok(Length {
                    value: usize::from(low - 0x80) + 0x80 * usize::from(*middle),
                    rest,
                })
            } else {
                read_third(low, *middle, rest)
            }
        }
    }
}

// Reads the rest of a varint whose first two bytes say that it goes on.
fn read_third(low: u8, middle: u8, bytes: &[u8]) -> Result<Length<'_>, PbFault>
    requires low { 128 ≤ low }
    requires middle { 128 ≤ middle }
    ensures { ReadsLength (low ∷ middle ∷ bytes.now) result }
{
    match bytes {
        [] => Err(PbFault::Truncated),
        [high, rest @ ..] => {
            let value = usize::from(low - 0x80)
                + 0x80 * usize::from(middle - 0x80)
                + 0x4000 * usize::from(*high);
            if *high == 0 || *high >= 0x80 || value > MAX_VALUE {
                Err(PbFault::Varint)
            } else {
                Ok(Length { value, rest })
            }
        }
    }
}

//! What opens the content of a reply, before the value or the text that it lends.
ghost use Rattle.std.specs.Prelude.{◌≡◌, ◌≤◌, ℕ, ◌++◌, length};
ghost use Rattle.peer_view.specs.Sinks.{MAX_VALUE};
ghost use Rattle.peer_reply.specs.Bodies.{tag_and_length, varint};
ghost use Rattle.peer_reply.specs.Openings.{opening_bytes};

use arrayvec::ArrayVec;

/// The tag and the length of a body, or the beginning of a text.
#[derive(Drop)]
pub enum Opening {
    Body(ArrayVec<u8, 4>),
    Text(&'static [u8]),
}

impl Opening {
    /// The tag and the length of a value's body.
    pub fn of_value(length: usize) -> Opening
        requires { length ≤ MAX_VALUE }
        ensures { opening_bytes result ≡ tag_and_length length }
    {
        let mut bytes = ArrayVec::new();
        bytes.push(0x0A);
        push_varint(&mut bytes, length);
        Opening::Body(bytes)
    }

    pub fn as_slice(&self) -> &[u8]
        ensures { result.now ≡ opening_bytes self.now }
    {
        match self {
            Opening::Body(bytes) => bytes.as_slice(),
            Opening::Text(text) => text,
        }
    }
}

// Appends the shortest varint of a number.
fn push_varint(bytes: &mut ArrayVec<u8, 4>, n: usize)
    requires room { length bytes.old.items ≡ 1 }
    requires small { n ≤ MAX_VALUE }
    ensures { bytes.new.items ≡ bytes.old.items ++ varint n }
{
    if n < 0x80 {
        bytes.push(n as u8);
        return;
    }
    bytes.push(0x80 + (n % 0x80) as u8);
    if n < 0x4000 {
        bytes.push((n / 0x80) as u8);
        return;
    }
    bytes.push(0x80 + (n / 0x80 % 0x80) as u8);
    bytes.push((n / 0x4000) as u8);
}
